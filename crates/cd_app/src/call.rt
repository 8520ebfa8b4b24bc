//! The top calls: `run_cd` for all commands, `plain_cd` for those that run nothing.

ghost use Rattle.std.specs.Prelude.{◌≡◌, ℕ, Some, IfOk, IfErr, OnErr};
ghost use Rattle.cd_field.specs.FieldModel.{FieldModel};
ghost use Rattle.cd_command.specs.declared.command.Command.TheVariants as command;
ghost use Rattle.cd_command.specs.CommandLine.{command_in, IsInRange};
ghost use Rattle.cd_app.specs.Calls.{Meets, call_of};

use crate::Status;
use crate::actions::{Action, act};
use crate::run::{AskedRun, run_source};
use crate::status::settled;
use cd_base::{NoMemory, Sink, Source};
use cd_command::{Command, Words, command_of};
use cd_field::Field;
use cd_make::write_make;
use cd_pool::Engine;
use cd_report::write_usage;
use std::alloc::Global;
use std::sync::Wait;
use std::thread::Threads;

/// Does what the words say. All but `make` read a document from the source; `run` runs it on the machine, and no other
/// command touches that; each writes its text to the sink. A run may wait; nothing else does. Where its clause says that a
/// document has run, the machine holds that run, whatever the number of workers and however their steps fell, and the engine has
/// counted its begins; after want of memory in a run nothing is said of the machine, and the engine has counted them or has not.
pub fn run_cd<R: Threads + Wait + Sync, S: Source, K: Sink, F: Field, E: Engine>(
    rt: &R,
    alloc: Global,
    words: &Words,
    source: &mut S,
    sink: &mut K,
    machine: &mut F,
    engine: &mut E,
) -> Status
    ensures { Meets (call_of words.now (S.model source.old) (S.model source.new) (F.model machine.old) (F.model machine.new) (E.begins engine.old) (E.begins engine.new)) (K.model sink.old) (K.model sink.new) result }
{
    match plain_cd(alloc, words, source, sink) {
        Ok(status) => status,
        Err(asked) => run_source(rt, alloc, asked, source, sink, machine, engine),
    }
}

/// Does what the words say, unless they ask for a run: then it does nothing, and gives that run back. It takes no machine
/// and no handle, so it never waits: whatever machines and engines there are, each is as it was.
pub fn plain_cd<S: Source, K: Sink>(
    alloc: Global,
    words: &Words,
    source: &mut S,
    sink: &mut K,
) -> Result<Status, AskedRun>
    ensures done { IfOk result (λ status. (m : FieldModel) (count : ℕ) → Meets (call_of words.now (S.model source.old) (S.model source.new) m m count count) (K.model sink.old) (K.model sink.new) status) }
    ensures run { IfErr result (λ run. command_in words.now ≡ Some (command.Run run.workers run.with_record)) }
    ensures range { IfErr result (λ run. IsInRange (command.Run run.workers run.with_record)) }
    ensures source { OnErr result (S.model source.new ≡ S.model source.old) }
    ensures sink { OnErr result (K.model sink.new ≡ K.model sink.old) }
{
    match command_of(alloc, words) {
        Ok(Some(Command::Check)) => Ok(act(alloc, Action::Check, source, sink)),
        Ok(Some(Command::Read)) => Ok(act(alloc, Action::Read, source, sink)),
        Ok(Some(Command::Lift)) => Ok(act(alloc, Action::Lift, source, sink)),
        Ok(
            Some(
                Command::Run {
                    workers,
                    with_record,
                },
            ),
        ) => Err(AskedRun {
            workers,
            with_record,
        }),
        Ok(Some(Command::Make { size })) => {
            Ok(settled(write_make(alloc, size, sink), Status::Done))
        }
        Ok(None) => Ok(settled(write_usage(sink), Status::Usage)),
        Err(NoMemory) => Ok(Status::NoMemory),
    }
}
