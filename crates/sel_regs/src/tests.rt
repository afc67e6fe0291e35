// What a pool of three registers, a frame and four rules answer, worked out by hand.
use crate::{Pool, Slots, need};
use gg_base::limits::NEED_LIMIT;
use md_reader::{DescFault, read_description};
use std::test::Fail;

#[test]
fn registers_of_a_pool(rt: HostRuntime) -> Result<(), Fail> {
    let mut pool = Pool::new(0b1011);
    let taken = (pool.take(5), pool.take(3), pool.take(3), pool.take(9));
    assert!(rt; taken == (Some(0), Some(1), Some(3), None));
    assert!(rt;
        (pool.oldest(0), pool.oldest(0b10), pool.oldest(0b1011)) == (Some(1), Some(3), None)
    );
    assert!(rt; (pool.holder(0), pool.holder(2)) == (Some(5), None));
    Ok(())
}

#[test]
fn words_of_a_frame(rt: HostRuntime) -> Result<(), Fail> {
    let mut slots = Slots::new(1022);
    assert!(rt; slots.most() == 1022);
    assert!(rt; (slots.take(), slots.take(), slots.take()) == (Some(1022), Some(1023), None));
    assert!(rt; slots.most() == NEED_LIMIT);
    Ok(())
}

// Behind each rule its need.
const RULES: &str = "version 1
target vax
pool r0 r1 r2
class reg Reg
class rval Value l
class stmt Nothing
spill value b movb %1,%0
spill value w movw %1,%0
spill value l movl %1,%0
spill place b movab %1,%0
spill place w movaw %1,%0
spill place l moval %1,%0
spill ea movab %1,%0
reload movl %1,%0

rule reg : Plus reg reg
give fresh
rule reg : Plus reg reg
give reuse
rule reg : Neg rval
give reuse
rule stmt : Push reg
give scratch
rule stmt : Push rval
give nothing
";

const NEEDS: [u32; 5] = [3, 2, 1, 2, 0];

#[test]
fn needs_of_rules(rt: HostRuntime) -> Result<(), Fail> {
    let alloc = rt.alloc();
    let Ok(description) = read_description(alloc, RULES.as_bytes()) else {
        return Err("no description".into());
    };
    let classes = description.classes();
    let mut needs = [9u32; 5];
    for (rule, slot) in description.rules().iter().zip(needs.iter_mut()) {
        if rule.right.as_slice().len() <= 16 {
            *slot = need(rule, classes);
        }
    }
    assert!(rt; needs == NEEDS);
    Ok(())
}
