//! Full pages, in finished groups and behind them.
ghost use Rattle.std.specs.Prelude.{◌≡◌, ◌+◌, ◌*◌, ◌<◌, ◌≤◌, length, take, IfOk, OnOk};
ghost use Rattle.hq_store.specs.Pages.{flat, joined, AreWhole, AreGroups, IsRunAt};

use crate::group::Group;
use bytes::Bytes;
use hq_value::NoMemory;
use std::alloc::Global;

/// How many bytes a page has.
pub(crate) const PAGE: usize = 4_096;

/// How many pages a group has.
pub(crate) const GROUP: usize = 64;

/// The bytes from `at` on, up to the end of their page.
pub(crate) fn run_in_groups(groups: &[Group], at: usize) -> &[u8]
    requires groups { AreGroups PAGE GROUP groups.now }
    requires within { at < length (flat (flat groups.now)) }
    ensures run { IsRunAt (flat (flat groups.now)) at result.now }
    ensures some { 0 < length result.now }
{
    let place = at / PAGE;
    let pages = groups[place / GROUP].pages();
    pages[place % GROUP].as_slice().split_at(at % PAGE).1
}

/// The bytes from `at` on, up to the end of their page.
pub(crate) fn run_in_pages(pages: &[Bytes], at: usize) -> &[u8]
    requires whole { AreWhole PAGE pages.now }
    requires within { at < length (flat pages.now) }
    ensures run { IsRunAt (flat pages.now) at result.now }
    ensures some { 0 < length result.now }
{
    pages[at / PAGE].as_slice().split_at(at % PAGE).1
}

/// Adds the full pages that the bytes begin with, and answers the bytes that are left.
pub(crate) fn add_pages<'a>(
    alloc: Global,
    made: &mut Vec<Bytes>,
    bytes: &'a [u8],
) -> Result<&'a [u8], NoMemory>
    requires { AreWhole PAGE made.old.items }
    ensures bytes { IfOk result (λ rest. joined made.new.items rest.now ≡ joined made.old.items bytes.now) }
    ensures short { IfOk result (λ rest. length rest.now < PAGE) }
    ensures whole { OnOk result (AreWhole PAGE made.new.items) }
{
    let mut rest = bytes;
    while rest.len() >= PAGE {
        let (page, more) = rest.split_at(PAGE);
        made.push(Bytes::copy_from_slice(alloc, page)?)?;
        rest = more;
    }
    Ok(rest)
}

/// Makes so many groups of the first pages. No byte is copied, and without memory nothing changes.
pub(crate) fn make_groups(
    alloc: Global,
    groups: &mut Vec<Group>,
    pages: &mut Vec<Bytes>,
    count: usize,
) -> Result<(), NoMemory>
    requires enough { count * GROUP ≤ length pages.old.items }
    requires groups { AreGroups PAGE GROUP groups.old.items }
    requires whole { AreWhole PAGE pages.old.items }
    ensures same { joined groups.new.items pages.new.items ≡ joined groups.old.items pages.old.items }
    ensures groups { AreGroups PAGE GROUP groups.new.items }
    ensures whole { AreWhole PAGE pages.new.items }
    ensures more { length groups.new.items ≤ length groups.old.items + count }
{
    let mut made = groups_of(alloc, pages, count)?;
    let left = Vec::from_clones(alloc, pages.split_at(count * GROUP).1)?;
    groups.append(&mut made)?;
    *pages = left;
    Ok(())
}

// So many groups of the first pages.
fn groups_of(alloc: Global, pages: &[Bytes], count: usize) -> Result<Vec<Group>, NoMemory>
    requires { count * GROUP ≤ length pages.now }
    ensures pages { IfOk result (λ made. flat made.items ≡ take (count * GROUP) pages.now) }
    ensures whole { IfOk result (λ made. AreWhole GROUP made.items) }
    ensures counted { IfOk result (λ made. length made.items ≡ count) }
{
    let mut made = Vec::with_capacity(alloc, count)?;
    let mut rest = pages;
    for _ in 0..count {
        let (group, more) = rest.split_at(GROUP);
        made.push(Group::new(alloc, group)?)?;
        rest = more;
    }
    Ok(made)
}
