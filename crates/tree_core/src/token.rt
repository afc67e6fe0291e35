// The tokens of the tree language, and the sorts of its trees.

ghost use Rattle.std.specs.Prelude.{◌≡◌, Contains};
ghost use Rattle.std.specs.Option.{option_map};
ghost use Rattle.tree_core.specs.declared.token.Tok.{Tok};
ghost use Rattle.tree_core.specs.Attributes.{attribute_of};
ghost use Rattle.tree_core.specs.Names.{name_of};
ghost use Rattle.tree_core.specs.Grammar.{production, kids, sort_of, fits};

/// The sorts of trees: a statement, a value of a size, or a place that holds a value of a size.
#[derive(Clone, Copy, Debug, PartialEq, Eq)]
pub enum Sort {
    Stmt,
    Long,
    Byte,
    Word,
    PlaceB,
    PlaceW,
    PlaceL,
}

/// The tokens, in the order in which tables list them, and the mark behind a tree.
#[derive(Clone, Copy, Debug, PartialEq, Eq)]
pub enum Tok {
    Zero,
    One,
    Two,
    Four,
    Eight,
    Const,
    Gaddr,
    Loc,
    Arg,
    IndirB,
    IndirW,
    IndirL,
    Plus,
    Minus,
    Mul,
    Div,
    Mod,
    And,
    Or,
    Xor,
    Lsh,
    Rsh,
    Neg,
    Com,
    Sxb,
    Zxb,
    Sxw,
    Zxw,
    Ncb,
    Ncw,
    AssignB,
    AssignW,
    AssignL,
    Cbr,
    Push,
    Ret,
    Call,
    Save,
    Jump,
    End,
}

/// All tokens, in the order in which tables list them, `End` last.
pub const TOKENS: [Tok; 40] = [
    Tok::Zero,
    Tok::One,
    Tok::Two,
    Tok::Four,
    Tok::Eight,
    Tok::Const,
    Tok::Gaddr,
    Tok::Loc,
    Tok::Arg,
    Tok::IndirB,
    Tok::IndirW,
    Tok::IndirL,
    Tok::Plus,
    Tok::Minus,
    Tok::Mul,
    Tok::Div,
    Tok::Mod,
    Tok::And,
    Tok::Or,
    Tok::Xor,
    Tok::Lsh,
    Tok::Rsh,
    Tok::Neg,
    Tok::Com,
    Tok::Sxb,
    Tok::Zxb,
    Tok::Sxw,
    Tok::Zxw,
    Tok::Ncb,
    Tok::Ncw,
    Tok::AssignB,
    Tok::AssignW,
    Tok::AssignL,
    Tok::Cbr,
    Tok::Push,
    Tok::Ret,
    Tok::Call,
    Tok::Save,
    Tok::Jump,
    Tok::End,
];

/// The kinds of attributes.
#[derive(Clone, Copy, Debug, PartialEq, Eq)]
pub enum AttKind {
    Nothing,
    /// This constant.
    Own(u32),
    /// A constant that no token has as its own.
    Other,
    /// An object and an offset, other than -2147483648.
    Object,
    /// The number of a local.
    Local,
    /// The number of an argument, from 1 to 255.
    Argument,
    Branch,
    Label,
    /// A function and a number of arguments, at most 255.
    Callee,
}

/// All tokens, in the order in which tables list them.
pub fn tokens() -> &'static [Tok]
    ensures { (k : Tok) → Contains result.now k }
{
    &TOKENS
}

impl Tok {
    /// The sorts of the token's kids, from left to right.
    pub fn kids(self) -> &'static [Sort]
        ensures { result.now ≡ kids self }
    {
        match self.production() {
            Some((kids, _)) => kids,
            None => &[],
        }
    }

    /// The sort of a tree that begins with the token: none for `End` alone.
    pub fn sort(self) -> Option<Sort>
        ensures { result ≡ sort_of self }
    {
        match self.production() {
            Some((_, sort)) => Some(sort),
            None => None,
        }
    }

    /// The token's name, as descriptions and reports spell it.
    pub fn name(self) -> &'static str
        ensures { result.now ≡ name_of self }
    {
        match self {
            Tok::Zero => "Zero",
            Tok::One => "One",
            Tok::Two => "Two",
            Tok::Four => "Four",
            Tok::Eight => "Eight",
            Tok::Const => "Const",
            Tok::Gaddr => "Gaddr",
            Tok::Loc => "Loc",
            Tok::Arg => "Arg",
            Tok::IndirB => "IndirB",
            Tok::IndirW => "IndirW",
            Tok::IndirL => "IndirL",
            Tok::Plus => "Plus",
            Tok::Minus => "Minus",
            Tok::Mul => "Mul",
            Tok::Div => "Div",
            Tok::Mod => "Mod",
            Tok::And => "And",
            Tok::Or => "Or",
            Tok::Xor => "Xor",
            Tok::Lsh => "Lsh",
            Tok::Rsh => "Rsh",
            Tok::Neg => "Neg",
            Tok::Com => "Com",
            Tok::Sxb => "Sxb",
            Tok::Zxb => "Zxb",
            Tok::Sxw => "Sxw",
            Tok::Zxw => "Zxw",
            Tok::Ncb => "Ncb",
            Tok::Ncw => "Ncw",
            Tok::AssignB => "AssignB",
            Tok::AssignW => "AssignW",
            Tok::AssignL => "AssignL",
            Tok::Cbr => "Cbr",
            Tok::Push => "Push",
            Tok::Ret => "Ret",
            Tok::Call => "Call",
            Tok::Save => "Save",
            Tok::Jump => "Jump",
            Tok::End => "End",
        }
    }

    /// The kind of attribute that the token stands with.
    pub fn attribute(self) -> AttKind
        ensures { result ≡ attribute_of self }
    {
        match self {
            Tok::Zero => AttKind::Own(0),
            Tok::One => AttKind::Own(1),
            Tok::Two => AttKind::Own(2),
            Tok::Four => AttKind::Own(4),
            Tok::Eight => AttKind::Own(8),
            Tok::Const => AttKind::Other,
            Tok::Gaddr => AttKind::Object,
            Tok::Loc | Tok::Save => AttKind::Local,
            Tok::Arg => AttKind::Argument,
            Tok::Cbr => AttKind::Branch,
            Tok::Call => AttKind::Callee,
            Tok::Jump => AttKind::Label,
            Tok::IndirB | Tok::IndirW | Tok::IndirL => AttKind::Nothing,
            Tok::Plus | Tok::Minus | Tok::Mul | Tok::Div | Tok::Mod => AttKind::Nothing,
            Tok::And | Tok::Or | Tok::Xor | Tok::Lsh | Tok::Rsh => AttKind::Nothing,
            Tok::Neg | Tok::Com => AttKind::Nothing,
            Tok::Sxb | Tok::Zxb | Tok::Sxw | Tok::Zxw | Tok::Ncb | Tok::Ncw => AttKind::Nothing,
            Tok::AssignB | Tok::AssignW | Tok::AssignL => AttKind::Nothing,
            Tok::Push | Tok::Ret | Tok::End => AttKind::Nothing,
        }
    }

    // The tree grammar: for each token the sorts of its kids and its tree's own sort.
    fn production(self) -> Option<(&'static [Sort], Sort)>
        ensures { option_map (λ row. (row.0.now, row.1)) result ≡ production self }
    {
        match self {
            Tok::Zero | Tok::One | Tok::Two | Tok::Four | Tok::Eight | Tok::Const | Tok::Gaddr => {
                Some((&[], Sort::Long))
            }
            Tok::Loc | Tok::Arg => Some((&[], Sort::PlaceL)),
            Tok::IndirB => Some((&[Sort::Long], Sort::PlaceB)),
            Tok::IndirW => Some((&[Sort::Long], Sort::PlaceW)),
            Tok::IndirL => Some((&[Sort::Long], Sort::PlaceL)),
            Tok::Plus
            | Tok::Minus
            | Tok::Mul
            | Tok::Div
            | Tok::Mod
            | Tok::And
            | Tok::Or
            | Tok::Xor
            | Tok::Lsh
            | Tok::Rsh => Some((&[Sort::Long, Sort::Long], Sort::Long)),
            Tok::Neg | Tok::Com => Some((&[Sort::Long], Sort::Long)),
            Tok::Sxb | Tok::Zxb => Some((&[Sort::Byte], Sort::Long)),
            Tok::Sxw | Tok::Zxw => Some((&[Sort::Word], Sort::Long)),
            Tok::Ncb => Some((&[Sort::Long], Sort::Byte)),
            Tok::Ncw => Some((&[Sort::Long], Sort::Word)),
            Tok::AssignB => Some((&[Sort::PlaceB, Sort::Byte], Sort::Stmt)),
            Tok::AssignW => Some((&[Sort::PlaceW, Sort::Word], Sort::Stmt)),
            Tok::AssignL => Some((&[Sort::PlaceL, Sort::Long], Sort::Stmt)),
            Tok::Cbr => Some((&[Sort::Long, Sort::Long], Sort::Stmt)),
            Tok::Push | Tok::Ret => Some((&[Sort::Long], Sort::Stmt)),
            Tok::Call | Tok::Save | Tok::Jump => Some((&[], Sort::Stmt)),
            Tok::End => None,
        }
    }
}

impl Sort {
    /// Whether a tree of this sort may stand where the other is wanted: a place may stand for the
    /// value that it holds.
    pub fn fits(self, wanted: Sort) -> bool
        ensures { result ≡ fits self wanted }
    {
        match self {
            Sort::PlaceB => wanted == Sort::PlaceB || wanted == Sort::Byte,
            Sort::PlaceW => wanted == Sort::PlaceW || wanted == Sort::Word,
            Sort::PlaceL => wanted == Sort::PlaceL || wanted == Sort::Long,
            _ => wanted == self,
        }
    }
}
