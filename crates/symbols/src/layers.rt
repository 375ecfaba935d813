// The layers of the symbols of a table: what one symbol says beside its arguments, by numbers of fixed size.
ghost use Rattle.std.specs.Prelude.{◌≡◌, ◌⊎◌, ◌<◌, ◌≤◌, ◌^◌, ◌++◌, [], ◌∷◌, ℕ, true, false, length, map, take, slice_get, Some, IfSome, IfNone, IfOk, OnErr};
ghost use Rattle.std.specs.String.{string_bytes};
ghost use Rattle.symbols.specs.inner.Layer.{shown, FunctionLayer};
ghost use Rattle.symbols.specs.inner.Layers.{AreLayers, IsBegun, IsEachOnce, IsKnown, IsPadded, arg_at, layer_of, layers_of, list_at, lists_of, names_of, padded};

use crate::memory::Memory;
use crate::symbol_id::SymbolId;
use crate::symbol_view::SymbolView;
use indexmap::IndexSet;
use std::alloc::Global;

// The most names, and the most long lists of arguments, so that each number is a `u32`.
const MOST: usize = 4_294_967_295;

// A layer whose name stands by its number, and so do its arguments where they are more than four; up to four stand in
// place after their count, and zeros behind them.
#[derive(Clone, Copy, Debug, PartialEq, Eq, Hash)]
pub(crate) enum Node {
    Number(i32),
    Identifier(u32),
    Text(u32),
    Short(u32, u32, [SymbolId; 4]),
    Long(u32, u32),
}

// Layers, each of them once: to find one that is there allocates nothing, whatever its size.
#[derive(Debug, Drop)]
pub(crate) struct Layers {
    names: IndexSet<String>,
    lists: IndexSet<Vec<SymbolId>>,
    nodes: IndexSet<Node>,
}

impl Layers {
    // No layers.
    pub(crate) fn new(alloc: Global) -> Layers
        ensures layers { AreLayers result }
        ensures none { layers_of result ≡ [] }
    {
        Layers {
            names: IndexSet::new(alloc),
            lists: IndexSet::new(alloc),
            nodes: IndexSet::new(alloc),
        }
    }

    // How many layers there are.
    pub(crate) fn len(&self) -> usize
        ensures { result ≡ length (layers_of self.now) }
    {
        self.nodes.len()
    }

    // The layer at a place.
    pub(crate) fn view(&self, place: usize) -> SymbolView
        requires layers { AreLayers self.now }
        requires place { place < length (layers_of self.now) }
        ensures { slice_get (layers_of self.now) place ≡ Some (shown result) }
    {
        match &self.nodes[place] {
            Node::Number(n) => SymbolView::Number(number_of(n)),
            Node::Identifier(name) => SymbolView::Identifier(name_at(&self.names, *name)),
            Node::Text(text) => SymbolView::Text(name_at(&self.names, *text)),
            Node::Short(name, count, places) => {
                SymbolView::Function(name_at(&self.names, *name), first_of(places, *count))
            }
            Node::Long(name, list) => {
                SymbolView::Function(name_at(&self.names, *name), list_at(&self.lists, *list))
            }
        }
    }

    // The place of a layer, if it is there.
    pub(crate) fn find(&self, layer: SymbolView) -> Option<usize>
        requires layers { AreLayers self.now }
        ensures found { IfSome result (λ place. slice_get (layers_of self.now) place ≡ Some (shown layer.entry)) }
        ensures within { IfSome result (λ place. place < length (layers_of self.now)) }
        ensures absent { IfNone result ((place : ℕ) → ¬ (slice_get (layers_of self.now) place ≡ Some (shown layer.entry))) }
    {
        match self.node_of(layer) {
            Some(node) => self.nodes.get_index_of(&node),
            None => None,
        }
    }

    // The node that says a layer, if its name is known and so are its arguments where they are many.
    fn node_of(&self, layer: SymbolView) -> Option<Node>
        requires layers { AreLayers self.now }
        ensures known { IfSome result (λ node. IsKnown (length (names_of self.now)) (length (lists_of self.now)) node) }
        ensures says { IfSome result (λ node. layer_of (names_of self.now) (lists_of self.now) node ≡ shown layer.entry) }
        ensures absent { IfNone result ((place : ℕ) → ¬ (slice_get (layers_of self.now) place ≡ Some (shown layer.entry))) }
    {
        match layer {
            SymbolView::Number(n) => Some(Node::Number(n)),
            SymbolView::Identifier(name) => match name_number(&self.names, name) {
                Some(name) => Some(Node::Identifier(name)),
                None => None,
            },
            SymbolView::Text(text) => match name_number(&self.names, text) {
                Some(text) => Some(Node::Text(text)),
                None => None,
            },
            SymbolView::Function(name, args) => match name_number(&self.names, name) {
                Some(name) => self.function_node(name, args),
                None => None,
            },
        }
    }

    // The node of a function whose name has this number.
    fn function_node(&self, name: u32, args: &[SymbolId]) -> Option<Node>
        requires layers { AreLayers self.now }
        requires name { name < length (names_of self.now) }
        ensures known { IfSome result (λ node. IsKnown (length (names_of self.now)) (length (lists_of self.now)) node) }
        ensures says { IfSome result (λ node. layer_of (names_of self.now) (lists_of self.now) node
            ≡ FunctionLayer (list_at (names_of self.now) name) args.now) }
        ensures absent { IfNone result ((place : ℕ) → ¬ (slice_get (layers_of self.now) place
            ≡ Some (FunctionLayer (list_at (names_of self.now) name) args.now))) }
    {
        if args.len() <= 4 {
            return Some(short_node(name, args));
        }
        match list_number(&self.lists, args) {
            Some(list) => Some(Node::Long(name, list)),
            None => None,
        }
    }

    // The place of a layer, and whether it is new there: it takes the last place where it was not.
    pub(crate) fn insert(
        &mut self,
        alloc: Global,
        layer: SymbolView,
    ) -> Result<(usize, bool), Memory>
        requires { AreLayers self.old }
        ensures layers { AreLayers self.new }
        ensures place { IfOk result (λ r. slice_get (layers_of self.new) r.0 ≡ Some (shown layer.entry)) }
        ensures same { IfOk result (λ r. r.1 ≡ false → layers_of self.new ≡ layers_of self.old) }
        ensures added { IfOk result (λ r. r.1 ≡ true → layers_of self.new ≡ layers_of self.old ++ shown layer.entry ∷ []) }
        ensures err { OnErr result (layers_of self.new ≡ layers_of self.old) }
    {
        let node = self.node_for(alloc, layer)?;
        let (place, added) = self.nodes.insert_full(node)?;
        Ok((place, added))
    }

    // The node that says a layer, its name and its long list of arguments being added where they are new.
    fn node_for(&mut self, alloc: Global, layer: SymbolView) -> Result<Node, Memory>
        requires { AreLayers self.old }
        ensures layers { AreLayers self.new }
        ensures same { layers_of self.new ≡ layers_of self.old }
        ensures known { IfOk result (λ node. IsKnown (length (names_of self.new)) (length (lists_of self.new)) node) }
        ensures says { IfOk result (λ node. layer_of (names_of self.new) (lists_of self.new) node ≡ shown layer.entry) }
    {
        match layer {
            SymbolView::Number(n) => Ok(Node::Number(n)),
            SymbolView::Identifier(name) => {
                let name = add_name(alloc, &mut self.names, name)?;
                Ok(Node::Identifier(name))
            }
            SymbolView::Text(text) => {
                let text = add_name(alloc, &mut self.names, text)?;
                Ok(Node::Text(text))
            }
            SymbolView::Function(name, args) => {
                let name = add_name(alloc, &mut self.names, name)?;
                if args.len() <= 4 {
                    return Ok(short_node(name, args));
                }
                let list = add_list(alloc, &mut self.lists, args)?;
                Ok(Node::Long(name, list))
            }
        }
    }

    // The same layers once more.
    pub(crate) fn copy(&self) -> Result<Layers, Memory>
        requires { AreLayers self.now }
        ensures layers { IfOk result AreLayers }
        ensures same { IfOk result (λ copy. layers_of copy ≡ layers_of self.now) }
    {
        let names = self.names.clone()?;
        let lists = self.lists.clone()?;
        let nodes = self.nodes.clone()?;
        Ok(Layers {
            names,
            lists,
            nodes,
        })
    }
}

// The number that a node holds.
fn number_of(n: &i32) -> i32
    ensures { result ≡ n.now }
{
    *n
}

// The node of a name with up to four arguments.
fn short_node(name: u32, args: &[SymbolId]) -> Node
    requires { length args.now ≤ 4 }
    ensures { result ≡ Node.Short name (length args.now) (padded args.now) }
{
    let places = [
        arg_at(args, 0),
        arg_at(args, 1),
        arg_at(args, 2),
        arg_at(args, 3),
    ];
    Node::Short(name, args.len() as u32, places)
}

// The argument at a place, or zero.
fn arg_at(args: &[SymbolId], place: usize) -> SymbolId
    ensures { result ≡ arg_at args.now place }
{
    if place < args.len() {
        args[place]
    } else {
        SymbolId::at(0)
    }
}

// The first of four places.
fn first_of(places: &[SymbolId; 4], count: u32) -> &[SymbolId]
    requires { IsPadded count places.now }
    ensures { result.now ≡ take count places.now }
{
    &places[..count as usize]
}

// The name that has a number.
fn name_at(names: &IndexSet<String>, number: u32) -> &str
    requires { number < length (map string_bytes names.now.keys) }
    ensures { result.now ≡ list_at (map string_bytes names.now.keys) number }
{
    names[number as usize].as_str()
}

// The list that has a number.
fn list_at(lists: &IndexSet<Vec<SymbolId>>, number: u32) -> &[SymbolId]
    requires { number < length (map (λ list. list.items) lists.now.keys) }
    ensures { result.now ≡ list_at (map (λ list. list.items) lists.now.keys) number }
{
    lists[number as usize].as_slice()
}

// The number of a name, if it has one.
fn name_number(names: &IndexSet<String>, name: &str) -> Option<u32>
    requires { length (map string_bytes names.now.keys) < 2 ^ 32 }
    ensures found { IfSome result (λ n. slice_get (map string_bytes names.now.keys) n ≡ Some name.now) }
    ensures absent { IfNone result ((n : ℕ) → ¬ (slice_get (map string_bytes names.now.keys) n ≡ Some name.now)) }
{
    match names.get_index_of(name) {
        Some(number) => Some(number as u32),
        None => None,
    }
}

// The number of a list, if it has one.
fn list_number(lists: &IndexSet<Vec<SymbolId>>, list: &[SymbolId]) -> Option<u32>
    requires { length (map (λ list. list.items) lists.now.keys) < 2 ^ 32 }
    ensures found { IfSome result (λ n. slice_get (map (λ list. list.items) lists.now.keys) n ≡ Some list.now) }
    ensures absent { IfNone result ((n : ℕ) → ¬ (slice_get (map (λ list. list.items) lists.now.keys) n ≡ Some list.now)) }
{
    match lists.get_index_of(list) {
        Some(number) => Some(number as u32),
        None => None,
    }
}

// The number of a name, which it has already or is given.
fn add_name(alloc: Global, names: &mut IndexSet<String>, name: &str) -> Result<u32, Memory>
    requires once { IsEachOnce (map string_bytes names.old.keys) }
    requires few { length (map string_bytes names.old.keys) < 2 ^ 32 }
    ensures number { IfOk result (λ n. slice_get (map string_bytes names.new.keys) n ≡ Some name.now) }
    ensures begun { IsBegun (map string_bytes names.old.keys) (map string_bytes names.new.keys) }
    ensures once { IsEachOnce (map string_bytes names.new.keys) }
    ensures few { length (map string_bytes names.new.keys) < 2 ^ 32 }
{
    if let Some(number) = name_number(names, name) {
        return Ok(number);
    }
    if names.len() >= MOST {
        return Err(Memory);
    }
    let name = String::from_str(alloc, name)?;
    let (number, _) = names.insert_full(name)?;
    Ok(number as u32)
}

// The number of a list of more than four, which it has already or is given.
fn add_list(
    alloc: Global,
    lists: &mut IndexSet<Vec<SymbolId>>,
    list: &[SymbolId],
) -> Result<u32, Memory>
    requires once { IsEachOnce (map (λ list. list.items) lists.old.keys) }
    requires few { length (map (λ list. list.items) lists.old.keys) < 2 ^ 32 }
    ensures number { IfOk result (λ n. slice_get (map (λ list. list.items) lists.new.keys) n ≡ Some list.now) }
    ensures begun { (map (λ list. list.items) lists.new.keys ≡ map (λ list. list.items) lists.old.keys)
        ⊎ (map (λ list. list.items) lists.new.keys ≡ map (λ list. list.items) lists.old.keys ++ list.now ∷ []) }
    ensures once { IsEachOnce (map (λ list. list.items) lists.new.keys) }
    ensures few { length (map (λ list. list.items) lists.new.keys) < 2 ^ 32 }
{
    if let Some(number) = list_number(lists, list) {
        return Ok(number);
    }
    if lists.len() >= MOST {
        return Err(Memory);
    }
    let list = Vec::from_slice(alloc, list)?;
    let (number, _) = lists.insert_full(list)?;
    Ok(number as u32)
}
