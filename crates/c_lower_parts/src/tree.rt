// Pure trees.
ghost use Rattle.std.specs.Prelude.{◌≡◌, IfOk};
ghost use Rattle.c_lower_scheme.specs.Trees.{Indir, Conv, Neg, Com, Bin, divides_by, divides, reads, breaks, stable, is_leaf};
ghost use Rattle.c_lower_scheme.specs.Places.{conv, fitted, integer_of};
ghost use Rattle.c_lower_scheme.specs.Values.{scaled_by, shared_by, advance, advance_by, retreat, apart, step};
ghost use Rattle.c_lower_parts.specs.Views.{tree};

use c_types::constant::scale;
use c_types::{ArithmeticOperator, CType, Direction, Integer};
use gg_base::NoMemory;
use std::alloc::Global;

/// A tree that changes nothing when it is evaluated.
#[derive(Drop)]
pub enum Tree {
    Number(u32),
    /// The address of an object.
    Object(u32),
    Local(u32),
    /// A parameter, from 0.
    Parameter(u32),
    /// What memory holds at an address, as an integer type.
    Indirect(Integer, Box<Tree>),
    /// A value that is converted to a type of one or two bytes.
    Convert(Integer, Box<Tree>),
    Negate(Box<Tree>),
    Complement(Box<Tree>),
    Binary(ArithmeticOperator, Box<Tree>, Box<Tree>),
}

// Whether the operator has a divisor.
fn divides_by(op: ArithmeticOperator) -> bool
    ensures { result ≡ divides_by op }
{
    match op {
        ArithmeticOperator::Divide => true,
        ArithmeticOperator::Remainder => true,
        _ => false,
    }
}

impl Tree {
    /// Whether its evaluation may trap.
    pub fn divides(&self) -> bool
        ensures { result ≡ divides (tree self.now) }
    {
        match self {
            Tree::Number(_) => false,
            Tree::Object(_) => false,
            Tree::Local(_) => false,
            Tree::Parameter(_) => false,
            Tree::Indirect(_, a) => a.divides(),
            Tree::Convert(_, w) => w.divides(),
            Tree::Negate(w) => w.divides(),
            Tree::Complement(w) => w.divides(),
            Tree::Binary(op, a, b) => divides_by(*op) || a.divides() || b.divides(),
        }
    }

    /// Whether it reads memory.
    pub fn reads(&self) -> bool
        ensures { result ≡ reads (tree self.now) }
    {
        match self {
            Tree::Number(_) => false,
            Tree::Object(_) => false,
            Tree::Local(_) => false,
            Tree::Parameter(_) => false,
            Tree::Indirect(_, _) => true,
            Tree::Convert(_, w) => w.reads(),
            Tree::Negate(w) => w.reads(),
            Tree::Complement(w) => w.reads(),
            Tree::Binary(_, a, b) => a.reads() || b.reads(),
        }
    }

    /// Whether its evaluation may trap or be wild.
    pub fn breaks(&self) -> bool
        ensures { result ≡ breaks (tree self.now) }
    {
        self.divides() || self.reads()
    }

    /// Whether nothing changes its value that is done behind it, in a function with so many automatic locals.
    pub fn is_stable(&self, size: u32) -> bool
        ensures { result ≡ stable size (tree self.now) }
    {
        match self {
            Tree::Number(_) => true,
            Tree::Object(_) => true,
            Tree::Local(n) => size <= *n,
            Tree::Parameter(_) => false,
            Tree::Indirect(_, _) => false,
            Tree::Convert(_, w) => w.is_stable(size),
            Tree::Negate(w) => w.is_stable(size),
            Tree::Complement(w) => w.is_stable(size),
            Tree::Binary(op, a, b) => !divides_by(*op) && a.is_stable(size) && b.is_stable(size),
        }
    }

    /// Whether it is one token.
    pub fn is_leaf(&self) -> bool
        ensures { result ≡ is_leaf (tree self.now) }
    {
        match self {
            Tree::Number(_) => true,
            Tree::Object(_) => true,
            Tree::Local(_) => true,
            Tree::Parameter(_) => true,
            Tree::Indirect(_, _) => false,
            Tree::Convert(_, _) => false,
            Tree::Negate(_) => false,
            Tree::Complement(_) => false,
            Tree::Binary(_, _, _) => false,
        }
    }

    /// The same tree once more.
    pub fn copied(&self, alloc: Global) -> Result<Box<Tree>, NoMemory>
        ensures { IfOk result (λ r. tree r.value ≡ tree self.now) }
    {
        match self {
            Tree::Number(n) => boxed(alloc, Tree::Number(*n)),
            Tree::Object(n) => boxed(alloc, Tree::Object(*n)),
            Tree::Local(n) => boxed(alloc, Tree::Local(*n)),
            Tree::Parameter(n) => boxed(alloc, Tree::Parameter(*n)),
            Tree::Indirect(i, a) => indirect(alloc, *i, a.copied(alloc)?),
            Tree::Convert(i, w) => converted(alloc, *i, w.copied(alloc)?),
            Tree::Negate(w) => negated(alloc, w.copied(alloc)?),
            Tree::Complement(w) => complemented(alloc, w.copied(alloc)?),
            Tree::Binary(op, a, b) => binary(alloc, *op, a.copied(alloc)?, b.copied(alloc)?),
        }
    }
}

/// A tree in memory of its own.
pub fn boxed(alloc: Global, w: Tree) -> Result<Box<Tree>, NoMemory>
    ensures { IfOk result (λ r. tree r.value ≡ tree w) }
{
    Ok(Box::new(alloc, w)?)
}

/// What memory holds at an address.
pub fn indirect(alloc: Global, i: Integer, a: Box<Tree>) -> Result<Box<Tree>, NoMemory>
    ensures { IfOk result (λ r. tree r.value ≡ Indir i (tree a.value)) }
{
    boxed(alloc, Tree::Indirect(i, a))
}

// A value that is converted to a type of one or two bytes.
fn converted(alloc: Global, i: Integer, w: Box<Tree>) -> Result<Box<Tree>, NoMemory>
    ensures { IfOk result (λ r. tree r.value ≡ Conv i (tree w.value)) }
{
    boxed(alloc, Tree::Convert(i, w))
}

/// The value with the opposite sign.
pub fn negated(alloc: Global, w: Box<Tree>) -> Result<Box<Tree>, NoMemory>
    ensures { IfOk result (λ r. tree r.value ≡ Neg (tree w.value)) }
{
    boxed(alloc, Tree::Negate(w))
}

/// The value with all bits turned.
pub fn complemented(alloc: Global, w: Box<Tree>) -> Result<Box<Tree>, NoMemory>
    ensures { IfOk result (λ r. tree r.value ≡ Com (tree w.value)) }
{
    boxed(alloc, Tree::Complement(w))
}

/// An operator on two values.
pub fn binary(
    alloc: Global,
    op: ArithmeticOperator,
    a: Box<Tree>,
    b: Box<Tree>,
) -> Result<Box<Tree>, NoMemory>
    ensures { IfOk result (λ r. tree r.value ≡ Bin op (tree a.value) (tree b.value)) }
{
    boxed(alloc, Tree::Binary(op, a, b))
}

/// An operator on two trees of one token.
pub fn of_leaves(
    alloc: Global,
    op: ArithmeticOperator,
    a: Tree,
    b: Tree,
) -> Result<Box<Tree>, NoMemory>
    ensures { IfOk result (λ r. tree r.value ≡ Bin op (tree a) (tree b)) }
{
    let b = boxed(alloc, b)?;
    let a = boxed(alloc, a)?;
    binary(alloc, op, a, b)
}

/// How a type is read from memory and converted to.
pub fn integer_of(t: CType) -> Integer
    ensures { result ≡ integer_of t }
{
    match t {
        CType::Void => Integer::Int,
        CType::Integer(i) => i,
        CType::Pointer(_, _) => Integer::Int,
    }
}

/// A value that is converted to a type: a tree of its own for one of one or two bytes.
pub fn fitted(alloc: Global, t: CType, w: Box<Tree>) -> Result<Box<Tree>, NoMemory>
    ensures { IfOk result (λ r. tree r.value ≡ fitted t (tree w.value)) }
{
    match integer_of(t) {
        Integer::Char => converted(alloc, Integer::Char, w),
        Integer::UnsignedChar => converted(alloc, Integer::UnsignedChar, w),
        Integer::Short => converted(alloc, Integer::Short, w),
        Integer::UnsignedShort => converted(alloc, Integer::UnsignedShort, w),
        Integer::Int => Ok(w),
    }
}

// A number times a size.
fn scaled_by(alloc: Global, size: u32, w: Box<Tree>) -> Result<Box<Tree>, NoMemory>
    ensures { IfOk result (λ r. tree r.value ≡ scaled_by size (tree w.value)) }
{
    if size == 1 {
        Ok(w)
    } else {
        let size = boxed(alloc, Tree::Number(size))?;
        binary(alloc, ArithmeticOperator::Multiply, size, w)
    }
}

// A number divided by a size.
fn shared_by(alloc: Global, size: u32, w: Box<Tree>) -> Result<Box<Tree>, NoMemory>
    ensures { IfOk result (λ r. tree r.value ≡ shared_by size (tree w.value)) }
{
    if size == 1 {
        Ok(w)
    } else {
        let size = boxed(alloc, Tree::Number(size))?;
        binary(alloc, ArithmeticOperator::Divide, w, size)
    }
}

/// A sum of a pointer of the type and a number.
pub fn advance(alloc: Global, t: CType, a: Box<Tree>, b: Box<Tree>) -> Result<Box<Tree>, NoMemory>
    ensures { IfOk result (λ r. tree r.value ≡ advance t (tree a.value) (tree b.value)) }
{
    let b = scaled_by(alloc, scale(t), b)?;
    binary(alloc, ArithmeticOperator::Add, a, b)
}

/// A sum of a number and a pointer of the type.
pub fn advance_by(
    alloc: Global,
    t: CType,
    a: Box<Tree>,
    b: Box<Tree>,
) -> Result<Box<Tree>, NoMemory>
    ensures { IfOk result (λ r. tree r.value ≡ advance_by t (tree a.value) (tree b.value)) }
{
    let a = scaled_by(alloc, scale(t), a)?;
    binary(alloc, ArithmeticOperator::Add, a, b)
}

/// A pointer of the type less a number.
pub fn retreat(alloc: Global, t: CType, a: Box<Tree>, b: Box<Tree>) -> Result<Box<Tree>, NoMemory>
    ensures { IfOk result (λ r. tree r.value ≡ retreat t (tree a.value) (tree b.value)) }
{
    let b = scaled_by(alloc, scale(t), b)?;
    binary(alloc, ArithmeticOperator::Subtract, a, b)
}

/// How many elements lie between two pointers of the type.
pub fn apart(alloc: Global, t: CType, a: Box<Tree>, b: Box<Tree>) -> Result<Box<Tree>, NoMemory>
    ensures { IfOk result (λ r. tree r.value ≡ apart t (tree a.value) (tree b.value)) }
{
    let difference = binary(alloc, ArithmeticOperator::Subtract, a, b)?;
    shared_by(alloc, scale(t), difference)
}

/// A value that is stepped by a number.
pub fn step(alloc: Global, by: Direction, a: Box<Tree>, b: Box<Tree>) -> Result<Box<Tree>, NoMemory>
    ensures { IfOk result (λ r. tree r.value ≡ step by (tree a.value) (tree b.value)) }
{
    match by {
        Direction::Up => binary(alloc, ArithmeticOperator::Add, a, b),
        Direction::Down => binary(alloc, ArithmeticOperator::Subtract, a, b),
    }
}
