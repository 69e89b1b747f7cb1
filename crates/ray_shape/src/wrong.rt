ghost use Rattle.std.specs.Prelude.{◌≡◌, [], ◌∷◌, Bool, IfOk, Some, false};
ghost use Rattle.serde_json.specs.Data.{Data};
ghost use Rattle.serde_json.specs.Find.{get};
ghost use Rattle.ray_shape.specs.Wrong.{Finds, IsWrong, is_wanted, step};

use crate::shape::{Form, Item, Kind, Shape};
use std::alloc::{AllocError, AllocFailed, Global};

/// One step of a path into a JSON value. (Own.)
#[derive(Debug, Drop)]
pub enum Step {
    /// To the member of this name of an object.
    Member(String),
    /// To the item of this number of a list.
    Item(usize),
}

/// What is wanted at a place where something else stands, or nothing. (Own.)
#[derive(Clone, Copy, Debug, PartialEq, Eq)]
pub enum Wanted {
    /// A value of this shape.
    Shape(Shape),
    /// A list, of these.
    List(Item),
    /// An object, of this kind.
    Object(Kind),
    /// No member but those of this form.
    Members(Form),
    /// No member of this name.
    Nothing,
}

/// A place of a JSON value that isn't as the grammar wants it. (Own.)
#[derive(Debug, Drop)]
pub struct Wrong {
    /// The steps to the place from the value on, the outermost first.
    pub path: Vec<Step>,
    /// What is wanted there.
    pub wanted: Wanted,
}

/// Why a value isn't as the grammar wants it. (Own.)
#[derive(Debug, Drop)]
pub enum Fault {
    /// Something in it is wrong.
    At(Wrong),
    /// There was no memory to tell.
    NoMemory,
}

impl Wrong {
    // That the value itself isn't what is wanted.
    pub(crate) fn here(alloc: Global, wanted: Wanted) -> Wrong
        ensures path { result.path.items ≡ [] }
        ensures wanted { result.wanted ≡ wanted }
    {
        Wrong {
            path: Vec::new(alloc),
            wanted,
        }
    }
}

// That the member of this name isn't what is wanted.
pub(crate) fn member_wrong(alloc: Global, name: &str, wanted: Wanted) -> Result<Wrong, AllocError>
    ensures { IfOk result (λ w. (d : Data) → is_wanted wanted (get name.now d) ≡ false
        → IsWrong w d) }
{
    let mut wrong = Wrong::here(alloc, wanted);
    wrong
        .path
        .push(Step::Member(String::from_str(alloc, name)?))?;
    Ok(wrong)
}

// What is found in a part is found in the whole, one step further in.
pub(crate) fn inside(found: Result<(), Fault>, by: Step) -> Result<(), Fault>
    ensures { (test : Bool) (whole part : Data) → step by whole ≡ Some part
        → Finds found test part → Finds result test whole }
{
    match found {
        Ok(()) => Ok(()),
        Err(Fault::At(wrong)) => Err(Fault::At(further_in(wrong, by)?)),
        Err(Fault::NoMemory) => Err(Fault::NoMemory),
    }
}

// The same place, one step further in.
pub(crate) fn further_in(found: Wrong, by: Step) -> Result<Wrong, AllocError>
    ensures { IfOk result (λ w. (w.path.items ≡ by ∷ found.path.items)
        × (w.wanted ≡ found.wanted)) }
{
    let mut wrong = found;
    wrong.path.insert(0, by)?;
    Ok(wrong)
}

impl From<AllocError> for Fault {
    ghost use Rattle.std.specs.Prelude.{◌≡◌};
    ghost use Rattle.ray_shape.specs.declared.wrong.Fault.TheVariants.{NoMemory};

    ghost from_gives = { λ _ e. e ≡ NoMemory };

    fn from(_refused: AllocError) -> Fault {
        Fault::NoMemory
    }
}

impl<T: Drop> From<AllocFailed<T>> for Fault {
    ghost use Rattle.std.specs.Prelude.{◌≡◌};
    ghost use Rattle.ray_shape.specs.declared.wrong.Fault.TheVariants.{NoMemory};

    ghost from_gives = { λ _ e. e ≡ NoMemory };

    fn from(_refused: AllocFailed<T>) -> Fault {
        Fault::NoMemory
    }
}
