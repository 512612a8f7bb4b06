//! Pages that are made without a look. Each function drops at most one page, since a page has many
//! variants.

use super::charts::opened;
use super::name;
use super::shown::{is_text, text_of};
use crate::registers::switch::Switch;
use cutoff::Chart;
use frames::Config;
use frames::types::{Event, Op};
use pages::page::head::Head;
use pages::page::{Page, config_page, events_page};
use pages::query::{ConfigKind, EventsKind};
use schedule_trie::Name;
use std::alloc::{AllocError, Global};
use std::test::Fail;
use views::branches::branches_page;

/// The head of a page at the beginning of a branch of one step.
fn head(branch: Name) -> Head {
    Head {
        branch,
        place: 0,
        len: 1,
    }
}

/// The text of the page of process 1 in a configuration.
fn process_text(
    alloc: Global,
    head: &Head,
    config: &Config<Switch>,
) -> Result<Vec<u8>, AllocError> {
    let page = config_page(alloc, ConfigKind::Process(1), head, config)?;
    text_of(alloc, &page)
}

#[test]
fn page_of_a_configuration(rt: HostRuntime) -> Result<(), Fail> {
    let initial = Config::initial(rt.alloc(), Switch, 0)?;
    let text = process_text(rt.alloc(), &head(name(&rt, b"main")), &initial);
    assert!(rt; is_text(&text, b"0: process main 0 of 1\n  p1 idle\n"));
    Ok(())
}

/// The text of a page of history with one event: in step 0, process 1 invokes a read.
fn event_text(alloc: Global, head: &Head) -> Result<Vec<u8>, AllocError> {
    let mut events = Vec::new(alloc);
    events.push((0, Event::Invoke(1, Op::Read)))?;
    let page = events_page(alloc, EventsKind::History, head, events)?;
    text_of(alloc, &page)
}

#[test]
fn page_of_events(rt: HostRuntime) -> Result<(), Fail> {
    let text = event_text(rt.alloc(), &head(name(&rt, b"main")));
    assert!(rt; is_text(&text, b"0: history main 0 of 1\n  0 p1 invoke read\n"));
    Ok(())
}

/// The text of the page of a chart's branches, before any edit.
fn branches_text(alloc: Global, chart: &Chart<Switch>) -> Result<Vec<u8>, AllocError> {
    let page = branches_page(alloc, 0, chart)?;
    text_of(alloc, &Page::Branches(page))
}

#[test]
fn page_of_branches(rt: HostRuntime) -> Result<(), Fail> {
    let chart = opened(rt.alloc())?;
    let text = branches_text(rt.alloc(), &chart);
    assert!(rt; is_text(&text, b"0: branches 1 edits 0 made 1\n  main 1\n"));
    Ok(())
}
