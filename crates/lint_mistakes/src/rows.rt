//! Parts of rows of forms.

ghost use Rattle.lint_mistakes.specs.Rows as rows;
ghost use Rattle.sexpr_text.specs.Forest.{forest_of};
ghost use Rattle.sexpr_text.specs.Parts as row_parts;
ghost use Rattle.std.specs.Option.{option_map};
ghost use Rattle.std.specs.Prelude.{◌≡◌};

use sexpr_text::{Form, Head, Span, first_definition, first_group, head_of};

/// What follows the first form.
pub fn after_first(row: &[Form]) -> &[Form]
    ensures { forest_of result.now ≡ row_parts.after_first (forest_of row.now) }
{
    match head_of(row) {
        Head::Nothing => &[],
        Head::Word(_, _, rest) => rest,
        Head::Group(_, _, rest) => rest,
    }
}

/// The parts of the first form, where it is a list.
pub fn first_parts(row: &[Form]) -> &[Form]
    ensures { forest_of result.now ≡ rows.first_parts (forest_of row.now) }
{
    match head_of(row) {
        Head::Group(_, parts, _) => parts,
        _ => &[],
    }
}

/// What follows the title in a list that defines a domain or a problem.
fn after_title(parts: &[Form]) -> &[Form]
    ensures { forest_of result.now ≡ rows.after_title (forest_of parts.now) }
{
    after_first(after_first(parts))
}

/// The sections of the first list that defines something of this kind.
pub fn sections_of<'a>(forms: &'a [Form], kind: &[u8]) -> &'a [Form]
    ensures { forest_of result.now ≡ rows.sections_of kind.now (forest_of forms.now) }
{
    match first_definition(forms, kind) {
        Some((_, parts)) => after_title(parts),
        None => &[],
    }
}

/// What stands in the first list that begins with the word, after that word.
pub fn section_named<'a>(sections: &'a [Form], word: &[u8]) -> &'a [Form]
    ensures { forest_of result.now ≡ rows.section_named word.now (forest_of sections.now) }
{
    match first_group(sections, word) {
        Some((_, parts)) => after_first(parts),
        None => &[],
    }
}

/// The first form with its parts, where it is a list.
pub fn first_list(row: &[Form]) -> Option<(Span, &[Form])>
    ensures { option_map (λ found. (found.0, forest_of found.1.now)) result
        ≡ rows.first_list (forest_of row.now) }
{
    match head_of(row) {
        Head::Group(span, parts, _) => Some((span, parts)),
        _ => None,
    }
}

/// The list that follows the first word of this text, with its parts.
pub fn list_after<'a>(row: &'a [Form], word: &[u8]) -> Option<(Span, &'a [Form])>
    ensures { option_map (λ found. (found.0, forest_of found.1.now)) result
        ≡ rows.list_after word.now (forest_of row.now) }
{
    let mut rest = row;
    loop {
        match head_of(rest) {
            Head::Nothing => return None,
            Head::Word(_, text, after) => {
                if text.is(word) {
                    return first_list(after);
                }
                rest = after;
            }
            Head::Group(_, _, after) => rest = after,
        }
    }
}

/// The parts of the list that follows the first word of this text.
pub(crate) fn parts_after<'a>(row: &'a [Form], word: &[u8]) -> &'a [Form]
    ensures { forest_of result.now ≡ rows.parts_after word.now (forest_of row.now) }
{
    match list_after(row, word) {
        Some((_, parts)) => parts,
        None => &[],
    }
}
