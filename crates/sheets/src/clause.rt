use sets::ComponentSet;

/// A need: where the owner is installed, so is one of the members.
#[derive(Clone, Copy, PartialEq, Eq, Hash, Debug)]
pub struct Clause {
    pub owner: usize,
    pub members: ComponentSet,
}
