use ray_tree::NoMemory as Refused;

/// Why stored nodes and an order give no tree. (Own.)
#[derive(Clone, Copy, Debug, PartialEq, Eq)]
pub enum TreeFault {
    /// They carry no tree over the items.
    NotTree,
    /// There was no memory to make it.
    NoMemory,
}

impl From<Refused> for TreeFault {
    ghost use Rattle.std.specs.Prelude.{◌≡◌};
    ghost use Rattle.ray_stated.specs.declared.tree_fault.TreeFault.TheVariants.{NoMemory};

    ghost from_gives = { λ _ e. e ≡ NoMemory };

    fn from(_refused: Refused) -> TreeFault {
        TreeFault::NoMemory
    }
}
