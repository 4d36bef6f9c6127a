ghost use Rattle.std.specs.Prelude.{◌≡◌, IfOk, string_bytes};
ghost use Rattle.plan_wire.specs.Place.{path_of};

use std::alloc::{AllocError, Global};

/// Where a value stands in the document.
#[derive(Clone, Copy)]
pub(crate) enum Place<'a> {
    Root,
    Member(&'a Place<'a>, &'a str),
    Element(&'a Place<'a>, usize),
}

impl<'a> Place<'a> {
    /// Its path: `$`, then `.name` for a member and `[i]` for an element.
    pub(crate) fn path(&self, alloc: Global) -> Result<String, AllocError>
        ensures { IfOk result (λ text. string_bytes text ≡ path_of self.now) }
    {
        match self {
            Place::Root => String::from_str(alloc, "$"),
            Place::Member(parent, name) => {
                let text = parent.path(alloc)?;
                format!(in alloc; "{text}.{name}")
            }
            Place::Element(parent, i) => {
                let text = parent.path(alloc)?;
                format!(in alloc; "{text}[{i}]")
            }
        }
    }
}
