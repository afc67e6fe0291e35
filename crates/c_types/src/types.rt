// The types of values and places.
ghost use Rattle.std.specs.Prelude.{◌≡◌, ◌<◌, ◌≤◌, ◌+◌, ◌++◌, ◌∷◌, ◌↔◌, [], IfSome, IsSome, OnOk, IfOk, Some};
ghost use Rattle.c_types.specs.Types.{same_integer, same_type, target, pointer_to, HasPointer, integer_size, size_of, kept};
ghost use Rattle.c_types.specs.Types.{is_integer, is_scalar};

use gg_base::ListOf;
use gg_base::w32::{sext8, sext16, zext8, zext16};
use std::alloc::{AllocError, Global};

/// The types of whole numbers.
#[derive(Clone, Copy, Debug, PartialEq, Eq)]
pub enum Integer {
    Char,
    UnsignedChar,
    Short,
    UnsignedShort,
    Int,
}

impl Integer {
    /// Whether both are one type.
    #[tactic(auto, unfolding(crate::specs::Types::same_integer))]
    pub fn is_same(self, other: Integer) -> bool
        ensures { result ≡ same_integer self other }
    {
        match self {
            Integer::Char => matches!(other, Integer::Char),
            Integer::UnsignedChar => matches!(other, Integer::UnsignedChar),
            Integer::Short => matches!(other, Integer::Short),
            Integer::UnsignedShort => matches!(other, Integer::UnsignedShort),
            Integer::Int => matches!(other, Integer::Int),
        }
    }

    /// The bytes of such a number.
    #[tactic(auto, unfolding(crate::specs::Types::integer_size))]
    pub fn size(self) -> u32
        ensures size { result ≡ integer_size self }
        ensures small { (1 ≤ result) × (result ≤ 4) }
    {
        match self {
            Integer::Char => 1,
            Integer::UnsignedChar => 1,
            Integer::Short => 2,
            Integer::UnsignedShort => 2,
            Integer::Int => 4,
        }
    }

    /// What a place of this type holds once a value is stored: the low bytes, with their sign copied where it is signed.
    #[tactic(auto, unfolding(crate::specs::Types::kept))]
    pub fn keep(self, value: u32) -> u32
        ensures { result ≡ kept self value }
    {
        match self {
            Integer::Char => sext8(value),
            Integer::UnsignedChar => zext8(value),
            Integer::Short => sext16(value),
            Integer::UnsignedShort => zext16(value),
            Integer::Int => value,
        }
    }
}

/// The type of a value or a place. A pointer points to an integer type under so many further stars.
#[derive(Clone, Copy, Debug, PartialEq, Eq)]
pub enum CType {
    Void,
    Integer(Integer),
    Pointer(Integer, usize),
}

impl CType {
    /// Whether both are one type.
    #[tactic(auto, unfolding(crate::specs::Types::same_type))]
    pub fn is_same(self, other: CType) -> bool
        ensures { result ≡ same_type self other }
    {
        match self {
            CType::Void => matches!(other, CType::Void),
            CType::Integer(a) => match other {
                CType::Void => false,
                CType::Integer(b) => a.is_same(b),
                CType::Pointer(_, _) => false,
            },
            CType::Pointer(a, m) => match other {
                CType::Void => false,
                CType::Integer(_) => false,
                CType::Pointer(b, n) => a.is_same(b) && m == n,
            },
        }
    }

    /// What a pointer to an integer type under so many further stars points to.
    #[tactic(auto, unfolding(crate::specs::Types::target))]
    pub fn target(to: Integer, stars: usize) -> CType
        ensures { result ≡ target to stars }
    {
        if stars == 0 {
            CType::Integer(to)
        } else {
            CType::Pointer(to, stars - 1)
        }
    }

    /// The type of an address of a place of this type. None for `void`, and where 64 bits count no further star.
    #[tactic(auto, unfolding(crate::specs::Types::pointer_to))]
    pub fn pointer(self) -> Option<CType>
        ensures found { IfSome result (λ t. pointer_to self ≡ Some t) }
        ensures there { IsSome result ↔ HasPointer self }
    {
        match self {
            CType::Void => None,
            CType::Integer(to) => Some(CType::Pointer(to, 0)),
            CType::Pointer(to, stars) => {
                if stars == usize::MAX {
                    None
                } else {
                    Some(CType::Pointer(to, stars + 1))
                }
            }
        }
    }

    /// Whether it is an integer type.
    #[tactic(auto, unfolding(crate::specs::Types::is_integer))]
    pub fn is_integer(self) -> bool
        ensures { result ≡ is_integer self }
    {
        matches!(self, CType::Integer(_))
    }

    /// Whether it is an integer or a pointer type.
    #[tactic(auto, unfolding(crate::specs::Types::is_scalar))]
    pub fn is_scalar(self) -> bool
        ensures { result ≡ is_scalar self }
    {
        !matches!(self, CType::Void)
    }

    /// The bytes of such a value; none for `void`.
    #[tactic(auto, unfolding(crate::specs::Types::size_of))]
    pub fn size(self) -> u32
        ensures size { result ≡ size_of self }
        ensures small { result ≤ 4 }
    {
        match self {
            CType::Void => 0,
            CType::Integer(of) => of.size(),
            CType::Pointer(_, _) => 4,
        }
    }
}

/// A list of types.
pub type Types = ListOf<CType>;
