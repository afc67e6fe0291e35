// The description of L32.

/// L32, the second machine, with rules for all trees of a program: the word of its `target` line is `l32`.
pub const L32_GG: &str = "# L32, for a code generator that reads prefix trees of typed tokens.
# reg: a register. rval, wval, bval: operands that can be read. lpl, wpl, bpl: operands that can be written.
# con: constants. ea: addresses. stmt: statements.
# Arithmetic reaches registers alone, so each operand is loaded first, and a store comes last.
version 1
target l32
pool r1 r2 r3 r4 r5 r6 r7 r8 r9 r10 r11
class reg Reg
class rval Value l
class wval Value w
class bval Value b
class lpl Place l
class wpl Place w
class bpl Place b
class con Con
class ea Ea
class stmt Nothing
spill value b sb %1,%0
spill value w sh %1,%0
spill value l sw %1,%0
spill place b sta %1,%0
spill place w sta %1,%0
spill place l sta %1,%0
spill ea sta %1,%0
reload lw %0,%1
rule con : Zero
  give %1
rule con : One
  give %1
rule con : Two
  give %1
rule con : Four
  give %1
rule con : Eight
  give %1
rule con : Const
  give %1
rule ea : Gaddr
  give %1
rule lpl : Loc
  give %1
rule lpl : Arg
  give %1
rule lpl : IndirL reg
  give 0(%2)
rule lpl : IndirL ea
  give %2
rule wpl : IndirW reg
  give 0(%2)
rule wpl : IndirW ea
  give %2
rule bpl : IndirB reg
  give 0(%2)
rule bpl : IndirB ea
  give %2
rule rval : lpl
  give %1
rule wval : wpl
  give %1
rule bval : bpl
  give %1
rule wval : Ncw reg
  give %2
rule bval : Ncb reg
  give %2
rule reg : con
  do li %0,$%1
  give fresh
rule reg : rval
  do lw %0,%1
  give reuse
rule reg : ea
  do la %0,%1
  give reuse
rule reg : Plus reg reg
  do add %0,%2,%3
  give reuse
rule reg : Minus reg reg
  do sub %0,%2,%3
  give reuse
rule reg : Mul reg reg
  do mul %0,%2,%3
  give reuse
rule reg : Div reg reg
  do div %0,%2,%3
  give reuse
rule reg : And reg reg
  do and %0,%2,%3
  give reuse
rule reg : Or reg reg
  do or %0,%2,%3
  give reuse
rule reg : Xor reg reg
  do xor %0,%2,%3
  give reuse
rule reg : Lsh reg reg
  do sll %0,%2,%3
  give reuse
rule reg : Rsh reg reg
  do sra %0,%2,%3
  give reuse
rule reg : Mod reg reg
  do div %0,%2,%3
  do mul %0,%0,%3
  do sub %0,%2,%0
  give fresh
rule reg : Neg reg
  do neg %0,%2
  give reuse
rule reg : Com reg
  do not %0,%2
  give reuse
rule reg : Sxb bval
  do lb %0,%2
  give reuse
rule reg : Zxb bval
  do lbu %0,%2
  give reuse
rule reg : Sxw wval
  do lh %0,%2
  give reuse
rule reg : Zxw wval
  do lhu %0,%2
  give reuse
rule stmt : AssignL lpl reg
  do sw %3,%2
  give nothing
rule stmt : AssignW wpl wval
  do sh %3,%2
  give nothing
rule stmt : AssignB bpl bval
  do sb %3,%2
  give nothing
rule stmt : Cbr reg reg
  do j%1 %2,%3,%L
  give nothing
rule stmt : Push reg
  do push %2
  give nothing
rule stmt : Ret reg
  do lw a0,%2
  do ret
  give nothing
rule stmt : Jump
  do b %L
  give nothing
rule stmt : Call
  do call %F,%N
  give nothing
rule stmt : Save
  do sw a0,%1
  give nothing
";
