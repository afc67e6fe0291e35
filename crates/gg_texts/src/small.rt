// A small description.

/// A small part of the VAX-11, in which `Plus` of an address can block.
pub const M_GG: &str =
    "# A small part of the VAX-11: sums, products and indexed longwords that are returned.
version 1
target vax
pool r0 r1 r2 r3 r4 r5

class reg Reg
class rval Value l
class ea Ea
class con Con
class lpl Place l
class stmt Nothing

spill value b movb %1,%0
spill value w movw %1,%0
spill value l movl %1,%0
spill place b movab %1,%0
spill place w movaw %1,%0
spill place l moval %1,%0
spill ea movab %1,%0
reload movl %1,%0

rule con : Zero
  give %1
rule con : Two
  give %1
rule con : Four
  give %1
rule rval : con
  give $%1
rule rval : reg
  give %1
rule rval : lpl
  give %1
rule reg : rval
  do movl %1,%0
  give reuse
rule ea : Gaddr
  give %1
rule reg : ea
  do movab %1,%0
  give reuse
rule reg : Plus rval rval
  do addl3 %3,%2,%0
  give reuse
rule reg : Mul rval rval
  do mull3 %3,%2,%0
  give reuse
rule lpl : IndirL ea
  give %2
rule lpl : IndirL reg
  give (%2)
rule lpl : IndirL Plus ea Mul Four reg
  give %3[%6]
rule stmt : Ret rval
  do movl %2,r0
  do ret
  give nothing
";
