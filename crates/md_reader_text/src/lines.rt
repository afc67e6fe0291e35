// The lines of a text.
ghost use Rattle.std.specs.Prelude.{◌≡◌, ◌<◌, length, IfSome};
ghost use Rattle.std.specs.Option.{option_map};
ghost use Rattle.md_reader_text.specs.Lists.{list_of};
ghost use Rattle.md_reader_text.specs.Lines.{lines, cut_line};

use gg_base::fronts::line_len;

fn cut_line(text: &[u8]) -> Option<(&[u8], &[u8])>
    ensures shorter { IfSome result (λ x. length x.1.now < length text.now) }
    ensures is { option_map (λ x. (x.0.now, x.1.now)) result ≡ cut_line text.now }
{
    if text.is_empty() {
        return None;
    }
    let (line, rest) = text.split_at(line_len(text));
    match rest {
        [] => Some((line, rest)),
        [_, after @ ..] => Some((line, after)),
    }
}

/// The first line, without its line feed, and the text behind it.
pub fn next_line(text: &[u8]) -> Option<(&[u8], &[u8])>
    ensures shorter { IfSome result (λ x. length x.1.now < length text.now) }
    ensures is { lines text.now ≡ list_of (option_map (λ x. (x.0.now, lines x.1.now)) result) }
{
    cut_line(text)
}
