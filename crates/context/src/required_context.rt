// `RequiredContext`: what is needed at a point, by the pieces of its four maps. Its methods take the context by value and hand it back, or
// the answer.
// Stays: a piece is its number, with no type of its own: cells and slots hold it as a word, and laws over them would carry a projection.
ghost use Rattle.std.specs.Prelude.{◌≡◌, ◌+◌, ◌<◌};
ghost use Rattle.std.proofs.Math.Option.{some};
ghost use Rattle.part.specs.PartReq.{spine};
ghost use Rattle.part.specs.Store.{top, part, Good, Room};
ghost use Rattle.part.specs.Found.{Got};
ghost use Rattle.context.specs.Types.{types_of};
ghost use Rattle.context.specs.Remove.{remove};
ghost use Rattle.context.specs.Reduced.{Took, remove_room};
ghost use Rattle.context.specs.RequiredContext.{contains_context, merge_context, pieces, over_context, handle, variable, required, alter, remove_typed};
ghost use Rattle.context.specs.Contexts.{context_of, HasContext, MadeContext, variable_of, map_of, TookContext, take_room};

use crate::remove::{SizedTypes, remove};
use module::handles::{GlobalHandle, LocalHandle, TypeHandle};
use part::limits::SPINE;
use part::req::{add, contains, get};
use part::store::{EMPTY_PIECE, look, over, remake};

// A context, by the pieces of its maps.
#[derive(Clone, Copy)]
pub struct RequiredContext {
    pub globals: u32,
    pub locals: u32,
    pub args: u32,
    pub retval: u32,
}

#[derive(Clone, Copy)]
pub enum VarRef {
    Global(GlobalHandle),
    Local(LocalHandle),
}

// The entry i of the map m without q, where there is one; it is of the type t. Or the panic at a struct member that is not there.
fn alter(
    cells: &mut [u32],
    types: &SizedTypes,
    m: u32,
    i: u32,
    t: TypeHandle,
    q: u32,
) -> Option<u32>
    requires good { Good cells.old }
    requires m_bound { (m < top cells.old) × (q < top cells.old) }
    requires room { Room cells.old (remove_room (part cells.old m) (part cells.old q)) }
    ensures { Took cells.old cells.new (alter i (λ p. remove (types_of types.now.rows.now) p (part cells.old q) (some t.0)) (part cells.old m)) (remove_room (part cells.old m) (part cells.old q)) result }
{
    if m <= EMPTY_PIECE {
        return Some(m);
    }
    let x = look(cells, m);
    if i < x.index {
        return Some(m);
    }
    if x.index < i {
        let r = alter(cells, types, x.rest, i, t, q)?;
        return Some(remake(cells, m, x, x.child, r));
    }
    let c = remove(cells, types, x.child, q, Some(t))?;
    Some(remake(cells, m, x, c, x.rest))
}

impl RequiredContext {
    // Whether a part of it passes a limit.
    #[tactic(auto, unfolding(crate::specs::RequiredContext::over_context))]
    pub fn over(self, cells: &[u32]) -> bool
        requires good { Good cells.now }
        requires has_context { HasContext cells.now self }
        ensures { result ≡ over_context (context_of cells.now self) }
    {
        over(cells, self.globals)
            || over(cells, self.locals)
            || over(cells, self.args)
            || over(cells, self.retval)
    }

    // `contains`
    #[tactic(auto, unfolding(crate::specs::RequiredContext::contains_context))]
    pub fn contains(self, cells: &[u32], other: RequiredContext) -> bool
        requires good { Good cells.now }
        requires has_context { HasContext cells.now self × HasContext cells.now other }
        ensures { result ≡ contains_context (context_of cells.now self) (context_of cells.now other) }
    {
        contains(cells, self.globals, other.globals)
            && contains(cells, self.locals, other.locals)
            && contains(cells, self.args, other.args)
            && contains(cells, self.retval, other.retval)
    }

    // `merge`
    pub fn merge(self, cells: &mut [u32], other: RequiredContext) -> RequiredContext
        requires good { Good cells.old }
        requires has_context { HasContext cells.old self × HasContext cells.old other }
        requires room { Room cells.old (pieces (context_of cells.old self) + pieces (context_of cells.old other)) }
        ensures { MadeContext cells.old cells.new (merge_context (context_of cells.old self) (context_of cells.old other)) (pieces (context_of cells.old self) + pieces (context_of cells.old other)) result }
    {
        let globals = add(cells, self.globals, other.globals);
        let locals = add(cells, self.locals, other.locals);
        let args = add(cells, self.args, other.args);
        let retval = add(cells, self.retval, other.retval);
        RequiredContext {
            globals,
            locals,
            args,
            retval,
        }
    }

    // The map that a variable belongs to, and its index there.
    fn entry_of(self, var: VarRef) -> (u32, u32)
        requires { handle (variable_of var) < spine }
        ensures { (result.0 ≡ map_of self var) × (result.1 ≡ variable (handle (variable_of var))) }
    {
        match var {
            VarRef::Global(g) => (self.globals, SPINE + g.0),
            VarRef::Local(l) => (self.locals, SPINE + l.0),
        }
    }

    // What is needed of a variable.
    pub fn get(self, cells: &[u32], var: VarRef) -> Option<u32>
        requires good { Good cells.now }
        requires has_context { HasContext cells.now self × (handle (variable_of var) < spine) }
        ensures { Got cells.now (required (context_of cells.now self) (variable_of var)) result }
    {
        let (m, i) = self.entry_of(var);
        get(cells, m, i)
    }

    // `remove`: the piece q taken out of what is needed of a variable, which is of the type t; or that panic.
    pub fn remove(
        self,
        cells: &mut [u32],
        types: &SizedTypes,
        var: VarRef,
        t: TypeHandle,
        q: u32,
    ) -> Option<RequiredContext>
        requires good { Good cells.old }
        requires has_context { HasContext cells.old self × ((handle (variable_of var) < spine) × (q < top cells.old)) }
        requires room { Room cells.old (take_room (context_of cells.old self) (part cells.old q)) }
        ensures { TookContext cells.old cells.new (remove_typed (types_of types.now.rows.now) (context_of cells.old self) (variable_of var) t.0 (part cells.old q)) (take_room (context_of cells.old self) (part cells.old q)) result }
    {
        let (m, i) = self.entry_of(var);
        let left = alter(cells, types, m, i, t, q)?;
        match var {
            VarRef::Global(_) => Some(RequiredContext {
                globals: left,
                ..self
            }),
            VarRef::Local(_) => Some(RequiredContext {
                locals: left,
                ..self
            }),
        }
    }
}
