// The opening of a table: no domain is sent, and the first pass may post the root.
ghost use Rattle.std.specs.Prelude.{◌≡◌, ◌<◌, [], Some, IfOk};
ghost use Rattle.cd_cells.specs.Kinds.{Lawful};
ghost use Rattle.cd_cells.specs.Views.{name_of, first_view};
ghost use Rattle.cd_cells.specs.Steps.{with_view, knowing};
ghost use Rattle.cd_cells.specs.Seats.{IsAt};

use crate::plays::{Learning, Room};
use crate::rule::{Cells, Place, Shape, Steps};
use atomic_table::Table;
use cd_base::NoMemory;
use std::alloc::Global;
use std::marker::Brand;

fn learn_as<K, T: Shape<K>, B: Room>(table: &Steps<K, T>, seat: &mut Place<K, T>)
    requires room { name_of table.now.table_id ≡ B.name }
    requires same { seat.old.table_id ≡ table.now.table_id }
    requires words { 0 < table.now.table_id.words }
    requires fresh { seat.old.me.0.fresh ≡ 1 }
    ensures same { seat.new.table_id ≡ table.now.table_id }
    ensures me { seat.new.me ≡ with_view seat.old.me (knowing seat.old.me.0 (name_of table.now.table_id)) }
{
    table.load::<Learning<B>>(seat, 0);
}

// The first pass learns which table it is at.
fn learn<K, T: Shape<K>>(table: &Steps<K, T>, seat: &mut Place<K, T>)
    requires same { seat.old.table_id ≡ table.now.table_id }
    requires words { 0 < table.now.table_id.words }
    requires fresh { seat.old.me.0.fresh ≡ 1 }
    ensures same { seat.new.table_id ≡ table.now.table_id }
    ensures me { seat.new.me ≡ with_view seat.old.me (knowing seat.old.me.0 (name_of table.now.table_id)) }
{
    learn_as::<K, T, Brand>(table, seat)
}

// A table for so many domains, and its first seat.
pub(crate) fn open<K, T: Shape<K>>(
    alloc: Global,
    about: &K,
    count: u32,
) -> Result<(Cells<K, T>, Place<K, T>), NoMemory>
    requires lawful { Lawful (T.kind about.now) }
    requires count { count ≡ (T.kind about.now).count }
    ensures at { IfOk result (λ t. IsAt (T.kind about.now) about.now t.0.shared.table_id t.1.table_id t.1.me.0) }
    ensures key { IfOk result (λ t. t.0.shared.key ≡ about.now) }
    ensures me { IfOk result (λ t. t.1.me ≡ (knowing (first_view (Some about.now) (T.kind about.now).root) (name_of t.0.shared.table_id), [])) }
{
    let mut words = vec![in alloc; 0; 2 * count as usize + 2]?;
    words[2 * count as usize + 1] = 1;
    let (table, mut seat) = Table::vacant(alloc, words.as_slice(), count as usize, about)?;
    learn(&table.shared, &mut seat);
    Ok((table, seat))
}
