//! The page that lists a chart's branches.

ghost use Rattle.std.specs.Prelude.{◌≡◌, ◌<◌, IfOk, Some, length, map, slice_get};
ghost use Rattle.schedule_trie.specs.Forest.{Branch, AreNamedApart};
ghost use Rattle.schedule_trie.specs.Trie.{forest};
ghost use Rattle.pages.specs.page.Branches as spec;

use cutoff::chart::Chart;
use frames::register::Register;
use pages::listed::Listed;
use pages::page::branches::{BranchLength, BranchesPage};
use std::alloc::{AllocError, Global};

/// Returns the page that lists a chart's branches, in the order they were made, with their lengths.
/// The page also shows how many cells the chart ever made, and `edits`, which is how many edits
/// were accepted. Fails only if memory runs out.
pub fn branches_page<R: Register>(
    alloc: Global,
    edits: u64,
    chart: &Chart<R>,
) -> Result<BranchesPage, AllocError>
    ensures { IfOk result (λ page. page ≡ spec.branches_page edits (forest chart.now.trie)) }
{
    let made = chart.made();
    let branches = lengths(alloc, chart)?;
    Ok(BranchesPage {
        edits,
        made,
        branches,
    })
}

/// The name and the length of each branch, in the order the branches were made.
fn lengths<R: Register>(alloc: Global, chart: &Chart<R>) -> Result<Listed<BranchLength>, AllocError>
    ensures { IfOk result (λ all. all ≡ map spec.name_and_length (forest chart.now.trie).branches) }
{
    let mut all = Vec::new(alloc);
    for index in 0..chart.branches() {
        all.push(length_at(chart, index))?;
    }
    Ok(Listed::new(all))
}

/// The name and the length of the branch at `index` in the order in which the branches were made.
fn length_at<R: Register>(chart: &Chart<R>, index: u32) -> BranchLength
    requires apart { AreNamedApart (forest chart.now.trie).branches }
    requires within { index < length (forest chart.now.trie).branches }
    ensures { (b : Branch) × (slice_get (forest chart.now.trie).branches index ≡ Some b)
        × (result ≡ spec.name_and_length b) }
{
    let Some(name) = chart.name_at(index) else {
        unreachable!();
    };
    let Some(len) = chart.len(&name) else {
        unreachable!();
    };
    BranchLength { name, len }
}
