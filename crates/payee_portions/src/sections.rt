//! The sections of a list of portions: one for each work.

ghost use Rattle.std.specs.Prelude.{◌≡◌, ◌<◌, ◌≤◌, ◌+◌, drop, length};
ghost use Rattle.payee_portions.specs.Sections.{section_length, sections_of};
ghost use Rattle.payee_portions.specs.Shown.{portions_shown};

use crate::Portion;

/// Where the section ends whose first portion stands at a place: behind the last of those that follow it without a portion
/// of another work between them.
pub fn end_of_section(list: &[Portion<'_>], from: usize) -> usize
    requires { from < length list.now }
    ensures end { result ≡ from + section_length (portions_shown (drop from list.now)) }
    ensures some { from < result }
    ensures within { result ≤ length list.now }
{
    let work = list[from].line.work;
    let mut end = from + 1;
    while end < list.len() && list[end].line.work == work {
        end += 1;
    }
    end
}

/// How many works a list has portions of.
pub fn count_of_sections(list: &[Portion<'_>]) -> u64
    ensures { result ≡ length (sections_of (portions_shown list.now)) }
{
    let mut count = 0;
    let mut from = 0;
    while from < list.len() {
        from = end_of_section(list, from);
        count += 1;
    }
    count
}
