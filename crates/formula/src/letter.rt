// Letters and literals. The default of each stands where room is not in use.

// The letter of a block, and so the owner of its variables: `a` is the universal side, `e` the existential one.
#[derive(Clone, Copy, Debug, Default, PartialEq)]
pub enum Letter {
    #[default]
    Universal,
    Existential,
}

// A variable with a sign.
#[derive(Clone, Copy, Debug, Default, PartialEq)]
pub struct Literal {
    pub variable: u32,
    pub positive: bool,
}
