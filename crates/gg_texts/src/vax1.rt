// The description of the VAX-11 in version 1.

/// The rules of `VAX_GG` in version 1, each written out.
pub const VAX1_GG: &str =
    "# The VAX-11, for a code generator that reads prefix trees of typed tokens.
# reg: a register. rval, wval, bval: operands that can be read. lpl, wpl, bpl: operands that can be written.
# con: constants. ea: addresses. stmt: statements.
version 1
target vax
pool r0 r1 r2 r3 r4 r5
class reg Reg
class rval Value l
class wval Value w
class bval Value b
class lpl Place l
class wpl Place w
class bpl Place b
class con Con
class ea Ea
class stmt Nothing
spill value b movb %1,%0
spill value w movw %1,%0
spill value l movl %1,%0
spill place b movab %1,%0
spill place w movaw %1,%0
spill place l moval %1,%0
spill ea movab %1,%0
reload movl %1,%0
# constants and addresses; an address of its own is an immediate, so rval : Gaddr stands before ea : Gaddr
rule con : Zero
  give %1
rule con : One
  give %1
rule con : Two
  give %1
rule con : Four
  give %1
rule con : Eight
  give %1
rule con : Const
  give %1
rule rval : Gaddr
  give $%1
rule ea : Gaddr
  give %1
rule ea : Plus con reg
  give %2(%3)
rule ea : Plus reg con
  give %3(%2)
# places
rule lpl : Loc
  give %1
rule lpl : Arg
  give %1
rule bpl : IndirB reg
  give (%2)
rule wpl : IndirW reg
  give (%2)
rule lpl : IndirL reg
  give (%2)
rule bpl : IndirB ea
  give %2
rule wpl : IndirW ea
  give %2
rule lpl : IndirL ea
  give %2
rule bpl : IndirB Gaddr
  give %2
rule wpl : IndirW Gaddr
  give %2
rule lpl : IndirL Gaddr
  give %2
rule lpl : IndirL con
  give *$%2
# behind a pointer that stands in memory
rule bpl : IndirB Loc
  give *%2
rule wpl : IndirW Loc
  give *%2
rule lpl : IndirL Loc
  give *%2
rule bpl : IndirB Arg
  give *%2
rule wpl : IndirW Arg
  give *%2
rule lpl : IndirL Arg
  give *%2
rule bpl : IndirB IndirL Gaddr
  give *%3
rule wpl : IndirW IndirL Gaddr
  give *%3
rule lpl : IndirL IndirL Gaddr
  give *%3
# indexed places: by token for each base, since Gaddr, Loc and Arg are values elsewhere
rule wpl : IndirW Plus ea Mul Two reg
  give %3[%6]
rule lpl : IndirL Plus ea Mul Four reg
  give %3[%6]
rule wpl : IndirW Plus Gaddr Mul Two reg
  give %3[%6]
rule lpl : IndirL Plus Gaddr Mul Four reg
  give %3[%6]
rule wpl : IndirW Plus Gaddr Mul Two Zero
  give %3
rule lpl : IndirL Plus Gaddr Mul Four Zero
  give %3
rule wpl : IndirW Plus Loc Mul Two reg
  give *%3[%6]
rule lpl : IndirL Plus Loc Mul Four reg
  give *%3[%6]
rule wpl : IndirW Plus Arg Mul Two reg
  give *%3[%6]
rule lpl : IndirL Plus Arg Mul Four reg
  give *%3[%6]
rule wpl : IndirW Plus IndirL Gaddr Mul Two reg
  give *%4[%7]
rule lpl : IndirL Plus IndirL Gaddr Mul Four reg
  give *%4[%7]
rule bpl : IndirB Plus ea reg
  give %3[%4]
rule bpl : IndirB Plus Gaddr reg
  give %3[%4]
rule bpl : IndirB Plus Gaddr Zero
  give %3
rule bpl : IndirB Plus Loc reg
  give *%3[%4]
rule bpl : IndirB Plus Arg reg
  give *%3[%4]
rule bpl : IndirB Plus IndirL Gaddr reg
  give *%4[%5]
# values and registers
rule rval : con
  give $%1
rule rval : reg
  give %1
rule rval : lpl
  give %1
rule rval : Neg con
  give $-%2
rule bval : bpl
  give %1
rule wval : wpl
  give %1
rule bval : Ncb con
  give $%2
rule wval : Ncw con
  give $%2
rule bval : Ncb Sxb bval
  give %3
rule wval : Ncw Sxw wval
  give %3
rule bval : Ncb Zxb bval
  give %3
rule wval : Ncw Zxw wval
  give %3
rule bval : Ncb reg
  give %2
rule wval : Ncw reg
  give %2
rule reg : rval
  do movl %1,%0
  give reuse
rule reg : ea
  do movab %1,%0
  give reuse
# bridges; those with Mul are open only where the second part is a product, so that all other sums stay with rval
rule reg : Plus Gaddr Mul Two reg
  do movaw %2[%5],%0
  give reuse
rule reg : Plus Gaddr Mul Four reg
  do moval %2[%5],%0
  give reuse
rule reg : Plus Gaddr Mul rval rval
  do mull3 %5,%4,%0
  do addl3 %0,$%2,%0
  give fresh
rule reg : Plus Loc Mul rval rval
  do mull3 %5,%4,%0
  do addl3 %0,%2,%0
  give fresh
rule reg : Plus Arg Mul rval rval
  do mull3 %5,%4,%0
  do addl3 %0,%2,%0
  give fresh
rule reg : Plus IndirL Gaddr Mul rval rval
  do mull3 %6,%5,%0
  do addl3 %0,%3,%0
  give fresh
rule reg : Plus con rval
  do addl3 $%2,%3,%0
  give reuse
rule reg : Plus ea reg
  do movab %2,%0
  do addl2 %3,%0
  give fresh
rule reg : Plus ea rval
  do movab %2,%0
  do addl2 %3,%0
  give fresh
# operators
rule reg : Plus rval rval
  do addl3 %3,%2,%0
  give reuse
rule reg : Mul rval rval
  do mull3 %3,%2,%0
  give reuse
rule reg : Or rval rval
  do bisl3 %3,%2,%0
  give reuse
rule reg : Xor rval rval
  do xorl3 %3,%2,%0
  give reuse
rule reg : Minus rval rval
  do subl3 %3,%2,%0
  give reuse
rule reg : Div rval rval
  do divl3 %3,%2,%0
  give reuse
rule reg : And rval rval
  do mcoml %2,%0
  do bicl3 %0,%3,%0
  give fresh
rule reg : And rval One
  do bicl3 $-2,%2,%0
  give reuse
rule reg : And rval Com rval
  do bicl3 %4,%2,%0
  give reuse
rule reg : And Com rval rval
  do bicl3 %3,%4,%0
  give reuse
rule reg : Mod rval rval
  do divl3 %3,%2,%0
  do mull2 %3,%0
  do subl3 %0,%2,%0
  give fresh
rule reg : Lsh rval rval
  do bicl3 $-32,%3,%0
  do ashl %0,%2,%0
  give fresh
rule reg : Lsh rval con
  if range 3 0 31
  do ashl $%3,%2,%0
  give reuse
rule reg : Rsh rval rval
  do bicl3 $-32,%3,%0
  do mnegl %0,%0
  do ashl %0,%2,%0
  give fresh
rule reg : Rsh rval con
  if range 3 0 31
  do ashl $-%3,%2,%0
  give reuse
rule reg : Neg rval
  do mnegl %2,%0
  give reuse
rule reg : Com rval
  do mcoml %2,%0
  give reuse
rule reg : Sxb bval
  do cvtbl %2,%0
  give reuse
rule reg : Sxw wval
  do cvtwl %2,%0
  give reuse
rule reg : Zxb bval
  do movzbl %2,%0
  give reuse
rule reg : Zxw wval
  do movzwl %2,%0
  give reuse
# statements: operators straight into memory
rule stmt : AssignL lpl Zero
  do clrl %2
  give nothing
rule stmt : AssignL lpl Plus lpl One
  if same 2 4
  do incl %2
  give nothing
rule stmt : AssignL lpl Plus lpl rval
  if same 2 4
  do addl2 %5,%2
  give nothing
rule stmt : AssignL lpl Plus lpl rval
  do addl3 %5,%4,%2
  give nothing
rule stmt : AssignL lpl Plus Gaddr Mul Two reg
  do movaw %4[%7],%2
  give nothing
rule stmt : AssignL lpl Plus Gaddr Mul Four reg
  do moval %4[%7],%2
  give nothing
rule stmt : AssignL lpl Plus Gaddr Mul rval rval
  do mull3 %7,%6,%0
  do addl3 %0,$%4,%2
  give scratch
rule stmt : AssignL lpl Plus Loc Mul rval rval
  do mull3 %7,%6,%0
  do addl3 %0,%4,%2
  give scratch
rule stmt : AssignL lpl Plus Arg Mul rval rval
  do mull3 %7,%6,%0
  do addl3 %0,%4,%2
  give scratch
rule stmt : AssignL lpl Plus IndirL Gaddr Mul rval rval
  do mull3 %8,%7,%0
  do addl3 %0,%5,%2
  give scratch
rule stmt : AssignL lpl Plus con rval
  do addl3 $%4,%5,%2
  give nothing
rule stmt : AssignL lpl Plus rval rval
  do addl3 %5,%4,%2
  give nothing
rule stmt : AssignL lpl Minus lpl One
  if same 2 4
  do decl %2
  give nothing
rule stmt : AssignL lpl Minus lpl rval
  if same 2 4
  do subl2 %5,%2
  give nothing
rule stmt : AssignL lpl Minus lpl rval
  do subl3 %5,%4,%2
  give nothing
rule stmt : AssignL lpl Mul rval rval
  do mull3 %5,%4,%2
  give nothing
rule stmt : AssignL lpl Or rval rval
  do bisl3 %5,%4,%2
  give nothing
rule stmt : AssignL lpl Xor rval rval
  do xorl3 %5,%4,%2
  give nothing
rule stmt : AssignL lpl Minus rval rval
  do subl3 %5,%4,%2
  give nothing
rule stmt : AssignL lpl Div rval rval
  do divl3 %5,%4,%2
  give nothing
rule stmt : AssignL lpl And rval rval
  do mcoml %4,%0
  do bicl3 %0,%5,%2
  give scratch
rule stmt : AssignL lpl And rval One
  do bicl3 $-2,%4,%2
  give nothing
rule stmt : AssignL lpl And rval Com rval
  do bicl3 %6,%4,%2
  give nothing
rule stmt : AssignL lpl Mod rval rval
  do divl3 %5,%4,%0
  do mull2 %5,%0
  do subl3 %0,%4,%2
  give scratch
rule stmt : AssignL lpl Lsh rval rval
  do bicl3 $-32,%5,%0
  do ashl %0,%4,%2
  give scratch
rule stmt : AssignL lpl Lsh rval con
  if range 5 0 31
  do ashl $%5,%4,%2
  give nothing
rule stmt : AssignL lpl Rsh rval rval
  do bicl3 $-32,%5,%0
  do mnegl %0,%0
  do ashl %0,%4,%2
  give scratch
rule stmt : AssignL lpl Rsh rval con
  if range 5 0 31
  do ashl $-%5,%4,%2
  give nothing
rule stmt : AssignL lpl Neg rval
  do mnegl %4,%2
  give nothing
rule stmt : AssignL lpl Com rval
  do mcoml %4,%2
  give nothing
rule stmt : AssignL lpl Sxb bval
  do cvtbl %4,%2
  give nothing
rule stmt : AssignL lpl Sxw wval
  do cvtwl %4,%2
  give nothing
rule stmt : AssignL lpl Zxb bval
  do movzbl %4,%2
  give nothing
rule stmt : AssignL lpl Zxw wval
  do movzwl %4,%2
  give nothing
rule stmt : AssignL lpl ea
  do movab %3,%2
  give nothing
rule stmt : AssignL lpl rval
  do movl %3,%2
  give nothing
rule stmt : AssignB bpl Ncb rval
  do cvtlb %4,%2
  give nothing
rule stmt : AssignW wpl Ncw rval
  do cvtlw %4,%2
  give nothing
rule stmt : AssignB bpl bval
  do movb %3,%2
  give nothing
rule stmt : AssignW wpl wval
  do movw %3,%2
  give nothing
# branches
rule stmt : Cbr And rval rval Zero
  if signed 1
  do bitl %3,%4
  do j%1 %L
  give nothing
rule stmt : Cbr And rval rval Zero
  do mcoml %3,%0
  do bicl3 %0,%4,%0
  do tstl %0
  do j%1 %L
  give scratch
rule stmt : Cbr And rval One Zero
  if signed 1
  do bitl $1,%3
  do j%1 %L
  give nothing
rule stmt : Cbr And rval One Zero
  do bicl3 $-2,%3,%0
  do tstl %0
  do j%1 %L
  give scratch
rule stmt : Cbr Sxb bval Zero
  do tstb %3
  do j%1 %L
  give nothing
rule stmt : Cbr Sxw wval Zero
  do tstw %3
  do j%1 %L
  give nothing
rule stmt : Cbr Sxb bval Sxb bval
  do cmpb %3,%5
  do j%1 %L
  give nothing
rule stmt : Cbr Sxw wval Sxw wval
  do cmpw %3,%5
  do j%1 %L
  give nothing
rule stmt : Cbr rval Zero
  do tstl %2
  do j%1 %L
  give nothing
rule stmt : Cbr rval rval
  do cmpl %2,%3
  do j%1 %L
  give nothing
# the rest
rule stmt : Push rval
  do pushl %2
  give nothing
rule stmt : Ret rval
  do movl %2,r0
  do ret
  give nothing
rule stmt : Jump
  do jbr %L
  give nothing
rule stmt : Call
  do calls %N,%F
  give nothing
rule stmt : Save
  do movl r0,%1
  give nothing
";
