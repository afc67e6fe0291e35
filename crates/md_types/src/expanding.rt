// A description's lines, with its rules written out.
ghost use Rattle.std.specs.Prelude.{◌≡◌, ◌≤◌, ◌++◌, ◌∷◌, [], true, length, OnOk, IfOk, IfSome};
ghost use Rattle.std.specs.Option.{option_map};
ghost use Rattle.gg_base.specs.declared.limits.TheConstants.{DESCRIPTION_LIMIT};
ghost use Rattle.md_reader_text.specs.Lines.{lines};
ghost use Rattle.md_reader_text.specs.Words.{words};
ghost use Rattle.md_types.specs.Forms.{is_each};
ghost use Rattle.md_types.specs.Expand.{numbered, ends_rule, template_len, rule_behind, cut_behind, in_front, expand_from};
ghost use Rattle.md_types.specs.Expand.{left_over};
ghost use Rattle.md_types.specs.Expand.{is_second, expand};
ghost use Rattle.md_types.specs.Bad.{IsPlain, StaysAlike, TellsFirstBad};

use crate::copies::push_copies;
use crate::forms::{are_both, each_sizes, is_each, is_rule, is_skipped};
use crate::types::{Expanded, ExpandedLine, ExpandedLines};
use gg_base::{Bytes, NoMemory};
use md_reader_text::next_line;
use std::alloc::Global;

/// The lines of the text with their numbers, from 1.
fn numbered(alloc: Global, text: &[u8]) -> Result<Vec<ExpandedLine>, NoMemory>
    requires { length text.now ≤ DESCRIPTION_LIMIT }
    ensures { IfOk result (λ read. read.items ≡ numbered 1 (lines text.now)) }
{
    let mut read = Vec::new(alloc);
    let mut rest = text;
    let mut number: u32 = 1;
    while let Some((line, after)) = next_line(rest) {
        let bytes = Bytes::copy_of(alloc, line)?;
        read.push(ExpandedLine {
            bytes,
            from: number,
        })?;
        number += 1;
        rest = after;
    }
    Ok(read)
}

fn ends_rule(line: &ExpandedLine) -> bool
    ensures { result ≡ ends_rule line.now }
{
    let bytes = line.bytes.as_slice();
    is_rule(bytes) || is_each(bytes)
}

/// How many lines stand before the next that begins with `rule` or `each`.
fn template_len(lines: &[ExpandedLine]) -> usize
    ensures len { result ≡ template_len lines.now }
    ensures bound { result ≤ length lines.now }
{
    let mut len = 0;
    for line in lines {
        if ends_rule(line) {
            return len;
        }
        len += 1;
    }
    len
}

/// The lines of the rule behind an `each` line, and the lines behind the rule.
#[tactic(auto, using(crate::proofs::ExpandLaws::skip_cut, crate::proofs::ExpandLaws::rule_cut, crate::proofs::ExpandLaws::no_cut))]
fn rule_behind(lines: &[ExpandedLine]) -> Option<(&[ExpandedLine], &[ExpandedLine])>
    ensures is { option_map (λ x. (x.0.now, x.1.now)) result ≡ option_map (cut_behind lines.now) (rule_behind lines.now) }
    ensures shorter { IfSome result (λ x. length x.1.now ≤ length lines.now) }
{
    let mut rest = lines;
    while let [line, after @ ..] = rest {
        if !is_skipped(line.bytes.as_slice()) {
            if !is_rule(line.bytes.as_slice()) {
                return None;
            }
            let (_, behind) = after.split_at(template_len(after));
            return Some((&rest[..rest.len() - behind.len()], behind));
        }
        rest = after;
    }
    None
}

/// Appends what an `each` line and the rule behind it give, and answers the lines behind the rule; None of a bad `each` line.
#[tactic(auto, using(crate::proofs::ExpandLaws::each_gives, crate::proofs::ExpandLaws::no_rule, crate::proofs::ExpandLaws::no_sizes))]
fn push_each<'a>(
    alloc: Global,
    expanded: &mut Vec<ExpandedLine>,
    line: &ExpandedLine,
    after: &'a [ExpandedLine],
) -> Result<Option<&'a [ExpandedLine]>, NoMemory>
    requires { is_each (words line.now.bytes) ≡ true }
    ensures shorter { IfOk result (λ o. IfSome o (λ ls. length ls.now ≤ length after.now)) }
    ensures is { IfOk result (λ o. left_over expanded.new.items line.now.from (option_map (λ ls. ls.now) o)
        ≡ in_front expanded.old.items (expand_from 0 (line.now ∷ after.now))) }
{
    let Some((rule, behind)) = rule_behind(after) else {
        return Ok(None);
    };
    let Some(sizes) = each_sizes(alloc, line.bytes.as_slice())? else {
        return Ok(None);
    };
    push_copies(alloc, expanded, &sizes, rule)?;
    Ok(Some(behind))
}

fn push_line(
    alloc: Global,
    expanded: &mut Vec<ExpandedLine>,
    line: &ExpandedLine,
) -> Result<(), NoMemory>
    ensures { OnOk result (expanded.new.items ≡ expanded.old.items ++ line.now ∷ []) }
{
    let bytes = Bytes::copy_of(alloc, line.bytes.as_slice())?;
    expanded.push(ExpandedLine {
        bytes,
        from: line.from,
    })?;
    Ok(())
}

#[tactic(auto, using(crate::proofs::ExpandLaws::line_stays))]
fn expand_lines(alloc: Global, lines: &[ExpandedLine]) -> Result<Expanded, NoMemory>
    ensures { IfOk result (λ e. e ≡ expand_from 0 lines.now) }
{
    let mut expanded = Vec::new(alloc);
    let mut rest = lines;
    while let [line, after @ ..] = rest {
        if is_each(line.bytes.as_slice()) {
            let Some(behind) = push_each(alloc, &mut expanded, line, after)? else {
                return Ok(Expanded {
                    lines: ExpandedLines::from_vec(expanded),
                    bad: Some(line.from),
                });
            };
            rest = behind;
        } else {
            push_line(alloc, &mut expanded, line)?;
            rest = after;
        }
    }
    Ok(Expanded {
        lines: ExpandedLines::from_vec(expanded),
        bad: None,
    })
}

fn is_second(lines: &[ExpandedLine]) -> bool
    ensures { result ≡ is_second lines.now }
{
    for line in lines {
        let bytes = line.bytes.as_slice();
        if !is_skipped(bytes) {
            return are_both(bytes, "version", "2");
        }
    }
    false
}

fn written_out(alloc: Global, text: &[u8]) -> Result<Expanded, NoMemory>
    requires { length text.now ≤ DESCRIPTION_LIMIT }
    ensures { IfOk result (λ e. e ≡ expand text.now) }
{
    let lines = numbered(alloc, text)?;
    if is_second(&lines) {
        return expand_lines(alloc, &lines);
    }
    Ok(Expanded {
        lines: ExpandedLines::from_vec(lines),
        bad: None,
    })
}

/// The lines of a description, in which each rule under an `each` line stands once for each of its letters, up to before the first bad
/// `each` line. A text that isn't of version 2 is its own lines.
#[tactic(auto, using(crate::proofs::BadLaws::plain, crate::proofs::BadLaws::alike, crate::proofs::BadLaws::tells))]
pub fn expand(alloc: Global, text: &[u8]) -> Result<Expanded, NoMemory>
    requires { length text.now ≤ DESCRIPTION_LIMIT }
    ensures is { IfOk result (λ e. e ≡ expand text.now) }
    ensures plain { IfOk result (IsPlain text.now) }
    ensures alike { IfOk result (StaysAlike text.now) }
    ensures bad { IfOk result (TellsFirstBad text.now) }
{
    written_out(alloc, text)
}
