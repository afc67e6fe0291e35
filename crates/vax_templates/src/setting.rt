// What the holes of a template stand for, and what its lines may do.

use gg_base::Size;

/// What a symbol of a rule is to the rule's template.
#[derive(Clone, Copy, Debug, PartialEq, Eq)]
pub enum Hole {
    /// A register.
    Register,
    /// An operand whose value of this size is read.
    Value(Size),
    /// An operand that is read or written at this size.
    Place(Size),
    /// The place of a local or an argument, a longword.
    Local,
    /// A place of this size whose address is saved.
    SavedPlace(Size),
    /// An operand without index whose address counts; it may be read or written at any size.
    Address,
    /// A constant.
    Constant,
    /// The constant of a token, which is this one.
    Literal(u32),
    /// The address of an object.
    Object,
    /// The local in which the last call's result is saved.
    Saved,
    /// The relation of a conditional branch.
    Relation,
    /// Nothing that an operand may spell.
    Other,
}

/// What `%0` is.
#[derive(Clone, Copy, Debug, PartialEq, Eq)]
pub enum Own {
    Nothing,
    /// A register that a value is put into.
    Register,
    /// The slot of this size in which a spill line saves.
    Slot(Size),
}

/// What a rule begins with: that decides what register 0 is to its template.
#[derive(Clone, Copy, Debug, PartialEq, Eq)]
pub enum Opening {
    /// A return: register 0 takes the value.
    Return,
    /// The saving of the last call's result, which register 0 holds.
    Save,
    Other,
}

/// What the lines of a template may do.
#[derive(Clone, Copy, Debug, PartialEq, Eq)]
pub struct Setting {
    pub own: Own,
    /// Whether `%0` may be the register of an operand.
    pub is_reused: bool,
    /// Whether the branch's relation compares with signs, or for equality.
    pub is_signed: bool,
    pub opening: Opening,
    /// Whether the template is a statement's or saves something: it then stores, branches, pushes, calls, saves, returns or jumps.
    pub is_statement: bool,
}
