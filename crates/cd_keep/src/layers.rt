// The layers that a pass has no more to put into, oldest first: a list of its own, or one that relatives share with it.
ghost use Rattle.std.specs.Prelude.{◌≡◌, ◌∷◌, ◌++◌, [], true, false, map, IfOk, IfErr, OnOk, OnErr};
ghost use Rattle.std.specs.Arc.{arc_value};
ghost use Rattle.cd_keep.specs.Layers.{values, layers_of, are_own};

use crate::layer::Layer;
use cd_base::NoMemory;
use std::alloc::Global;
use std::mem;
use std::sync::Arc;

pub(crate) type LayerList = Vec<Arc<Layer, Global>>;

#[derive(Drop)]
pub(crate) enum Layers {
    Own(LayerList),
    Shared(Arc<LayerList, Global>),
}

// The layers, as they stand.
pub(crate) fn list(layers: &Layers) -> &[Arc<Layer, Global>]
    ensures { values result.now ≡ layers_of layers.now }
{
    match layers {
        Layers::Own(list) => list.as_slice(),
        Layers::Shared(list) => list.as_slice(),
    }
}

// A second pointer to the list. From now on it is shared.
pub(crate) fn share(layers: &mut Layers, alloc: Global) -> Result<Arc<LayerList, Global>, NoMemory>
    ensures second { IfOk result (λ list. values (arc_value list).items ≡ layers_of layers.old) }
    ensures same { layers_of layers.new ≡ layers_of layers.old }
{
    point(layers, alloc)?;
    match layers {
        Layers::Shared(list) => Ok(Arc::try_clone(list)?),
        Layers::Own(_) => unreachable!(),
    }
}

// Puts the list behind a pointer. Where there is no memory for it, it stays the pass's own.
fn point(layers: &mut Layers, alloc: Global) -> Result<(), NoMemory>
    ensures same { layers_of layers.new ≡ layers_of layers.old }
    ensures shared { OnOk result (are_own layers.new ≡ false) }
{
    if let Layers::Own(list) = layers {
        let own = mem::replace(list, Vec::new(alloc));
        match Arc::new(alloc, own) {
            Ok(shared) => *layers = Layers::Shared(shared),
            Err(failed) => {
                *list = failed.value;
                return Err(NoMemory);
            }
        }
    }
    Ok(())
}

// Puts a layer last, or gives it back.
pub(crate) fn put_last(layers: &mut Layers, alloc: Global, layer: Layer) -> Result<(), Layer>
    ensures layers { OnOk result (layers_of layers.new ≡ layers_of layers.old ++ layer ∷ []) }
    ensures unchanged { OnErr result (layers_of layers.new ≡ layers_of layers.old) }
    ensures back { IfErr result (λ back. back ≡ layer) }
{
    if own(layers, alloc).is_err() {
        return Err(layer);
    }
    match layers {
        Layers::Own(list) => push(list, alloc, layer),
        Layers::Shared(_) => unreachable!(),
    }
}

fn push(list: &mut LayerList, alloc: Global, layer: Layer) -> Result<(), Layer>
    ensures layers { OnOk result (values list.new.items ≡ values list.old.items ++ layer ∷ []) }
    ensures unchanged { OnErr result (values list.new.items ≡ values list.old.items) }
    ensures back { IfErr result (λ back. back ≡ layer) }
{
    if list.reserve(1).is_err() {
        return Err(layer);
    }
    match Arc::new(alloc, layer) {
        Ok(pointer) => {
            list.push_reserved(pointer);
            Ok(())
        }
        Err(failed) => Err(failed.value),
    }
}

// Makes the list the pass's own: the shared one itself where nobody else has it any more.
fn own(layers: &mut Layers, alloc: Global) -> Result<(), NoMemory>
    ensures same { layers_of layers.new ≡ layers_of layers.old }
    ensures own { OnOk result (are_own layers.new ≡ true) }
{
    match mem::replace(layers, Layers::Own(Vec::new(alloc))) {
        Layers::Own(list) => *layers = Layers::Own(list),
        Layers::Shared(shared) => match unshared(shared, alloc) {
            Ok(list) => *layers = Layers::Own(list),
            Err(shared) => {
                *layers = Layers::Shared(shared);
                return Err(NoMemory);
            }
        },
    }
    Ok(())
}

fn unshared(
    shared: Arc<LayerList, Global>,
    alloc: Global,
) -> Result<LayerList, Arc<LayerList, Global>>
    ensures list { IfOk result (λ list. values list.items ≡ values (arc_value shared).items) }
    ensures back { IfErr result (λ back. values (arc_value back).items ≡ values (arc_value shared).items) }
{
    match Arc::try_unwrap(shared) {
        Ok(list) => Ok(list),
        Err(shared) => match pointers(alloc, shared.as_slice()) {
            Ok(list) => Ok(list),
            Err(NoMemory) => Err(shared),
        },
    }
}

// One more pointer to each layer.
fn pointers(alloc: Global, layers: &[Arc<Layer, Global>]) -> Result<LayerList, NoMemory>
    ensures { IfOk result (λ list. values list.items ≡ values layers.now) }
{
    let mut list = Vec::new(alloc);
    for layer in layers {
        list.push(Arc::try_clone(layer)?)?;
    }
    Ok(list)
}
