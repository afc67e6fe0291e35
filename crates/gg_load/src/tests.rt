// Sources as they are written.
use crate::make_source;
use std::test::Fail;

#[test]
fn sources(rt: HostRuntime) -> Result<(), Fail> {
    let alloc = rt.alloc();
    let one = make_source(alloc, 1)?;
    let wanted = b"int t[64];\n\
        int f0(int x){int y;y=x*1+0;t[x&63]=t[y&63]+y;return y^(y>>3);}\n\
        int main(){int s;s=1;\n\
        s=f0(s+0);\n\
        while(s){putchar(65+(s&15));s=(s>>4)&268435455;}\n\
        putchar(10);return 0;}\n";
    assert!(rt; one.as_slice() == wanted.as_slice());
    assert_eq!(rt; make_source(alloc, 2)?.len(), 255);
    Ok(())
}
