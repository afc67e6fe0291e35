//! Generated C sources, for trying the whole compiler on as many functions as are wanted.
#![tactic(auto)]

ghost use Rattle.std.specs.Fmt.{decimal};
ghost use Rattle.std.specs.Prelude.{◌≡◌, ◌++◌, ◌<◌, ◌≤◌, IfOk, OnOk};
ghost use Rattle.gg_load.specs.Source.{up_to, function_line, call_line, source_text};

use gg_base::{NoMemory, put_decimal};
use std::alloc::{AllocError, Global};

fn put_function(into: &mut Vec<u8>, number: u64) -> Result<(), AllocError>
    requires { number < 1000 }
    ensures { OnOk result (into.new.items ≡ into.old.items ++ function_line number) }
{
    into.extend_from_slice(b"int f")?;
    put_decimal(into, number)?;
    into.extend_from_slice(b"(int x){int y;y=x*")?;
    put_decimal(into, 2 * number + 1)?;
    into.extend_from_slice(b"+")?;
    put_decimal(into, number)?;
    into.extend_from_slice(b";t[x&63]=t[y&63]+y;return y^(y>>3);}\n")
}

fn put_call(into: &mut Vec<u8>, number: u64) -> Result<(), AllocError>
    ensures { OnOk result (into.new.items ≡ into.old.items ++ call_line number) }
{
    into.extend_from_slice(b"s=f")?;
    put_decimal(into, number)?;
    into.extend_from_slice(b"(s+")?;
    put_decimal(into, number)?;
    into.extend_from_slice(b");\n")
}

fn put_functions(into: &mut Vec<u8>, k: u64) -> Result<(), AllocError>
    requires { k ≤ 1000 }
    ensures { OnOk result (into.new.items ≡ into.old.items ++ up_to function_line k) }
{
    for number in 0..k {
        put_function(into, number)?;
    }
    Ok(())
}

fn put_calls(into: &mut Vec<u8>, k: u64) -> Result<(), AllocError>
    ensures { OnOk result (into.new.items ≡ into.old.items ++ up_to call_line k) }
{
    for number in 0..k {
        put_call(into, number)?;
    }
    Ok(())
}

/// The C source of `k` functions, from 1 to 1,000, and of a `main` that calls them in order and writes the last answer as letters.
pub fn make_source(alloc: Global, k: u32) -> Result<Vec<u8>, NoMemory>
    requires { (1 ≤ k) × (k ≤ 1000) }
    ensures text { IfOk result (λ source. source.items ≡ source_text k) }
{
    let mut source = Vec::new(alloc);
    source.extend_from_slice(b"int t[64];\n")?;
    put_functions(&mut source, k as u64)?;
    source.extend_from_slice(b"int main(){int s;s=1;\n")?;
    put_calls(&mut source, k as u64)?;
    source.extend_from_slice(b"while(s){putchar(65+(s&15));s=(s>>4)&268435455;}\n")?;
    source.extend_from_slice(b"putchar(10);return 0;}\n")?;
    Ok(source)
}

#[cfg(test)]
mod tests;
