//! Pages made through one lens, place by place. Each page is the same as through a new lens, and
//! takes few steps.

ghost use Rattle.std.specs.Prelude.{◌≡◌, ◌<◌, true};
ghost use Rattle.views.specs.Looks.{is_at_branch};

use super::counting::Counting;
use super::replay_counts::chart_of;
use super::single::{edit, new_lens, slip_of, text_of, text_once_through, text_through};
use super::steps::{Kind, step_of, writes};
use crate::given::{name, none_wrong};
use cutoff::chart::Chart;
use schedule_trie::edit::Edit;
use schedule_trie::name::Name;
use schedule_trie::refusal::Refusal;
use std::alloc::Global;
use std::process::Abort;
use std::sync::atomic::{AtomicU64, Ordering};
use views::lens::Lens;
use views::query::Query;
use views::slip::Slip;

/// A lens for charts that count their calls.
type CountingLens<'a> = Lens<Counting<'a>>;

/// Whether a slip's page through a new lens has this text.
fn has_text(alloc: Global, slip: &Slip<Counting<'_>>, text: &[u8]) -> Result<bool, Refusal> {
    Ok(text_of(alloc, slip)?.as_slice() == text)
}

/// Whether a slip's page is the same through `lens` as through a new lens.
fn is_same<'a>(
    alloc: Global,
    slip: &Slip<Counting<'a>>,
    lens: &mut CountingLens<'a>,
) -> Result<bool, Refusal> {
    let text = text_through(alloc, slip, lens)?;
    has_text(alloc, slip, &text)
}

/// How many steps were made for a slip's page through `lens`; `None` if the page differs from the
/// slip's page through a new lens.
fn steps_for<'a>(
    alloc: Global,
    calls: &AtomicU64,
    slip: &Slip<Counting<'a>>,
    lens: &mut CountingLens<'a>,
) -> Result<Option<u64>, Refusal> {
    let before = calls.load(Ordering::SeqCst);
    let text = text_through(alloc, slip, lens)?;
    let made = calls.load(Ordering::SeqCst).wrapping_sub(before);
    Ok(has_text(alloc, slip, &text)?.then_some(made))
}

/// What `is_same` returns for a slip that isn't used again.
fn is_same_once<'a>(
    alloc: Global,
    slip: Slip<Counting<'a>>,
    lens: &mut CountingLens<'a>,
) -> Result<bool, Refusal> {
    is_same(alloc, &slip, lens)
}

/// What `steps_for` returns for a slip that isn't used again.
fn steps_once<'a>(
    alloc: Global,
    calls: &AtomicU64,
    slip: Slip<Counting<'a>>,
    lens: &mut CountingLens<'a>,
) -> Result<Option<u64>, Refusal> {
    steps_for(alloc, calls, &slip, lens)
}

/// A chart of the 1,000 steps of `writes` on `main`, on a register that counts its calls.
#[derive(Drop)]
struct CountedChart<'a> {
    alloc: Global,
    calls: &'a AtomicU64,
    main: Name,
    chart: Chart<Counting<'a>>,
}

impl<'a> CountedChart<'a> {
    /// A chart of these steps, from an initial value.
    fn new(
        rt: &impl Abort,
        alloc: Global,
        calls: &'a AtomicU64,
        value: u32,
    ) -> Result<CountedChart<'a>, Refusal>
        requires { value < 2 }
    {
        let main = name(rt, b"main");
        let steps = writes(alloc).expect(rt, "memory");
        Ok(CountedChart {
            alloc,
            calls,
            main,
            chart: chart_of(alloc, calls, value, &steps)?,
        })
    }

    /// The query for the page of the state at a place.
    fn state_at(&self, place: u32) -> Query
        ensures { is_at_branch result ≡ true }
    {
        Query::State {
            b: self.main,
            k: place,
        }
    }

    /// How many steps were made for the page of the state at a place; `None` if the page differs
    /// from the page through a new lens.
    fn steps_at(
        &mut self,
        lens: &mut CountingLens<'a>,
        place: u32,
    ) -> Result<Option<u64>, Refusal> {
        let query = self.state_at(place);
        let slip = slip_of(self.alloc, &mut self.chart, query)?;
        steps_once(self.alloc, self.calls, slip, lens)
    }

    /// Whether the page of the state at a place is as through a new lens, and takes at most one
    /// step.
    fn is_cheap_at(&mut self, lens: &mut CountingLens<'a>, place: u32) -> Result<bool, Refusal> {
        match self.steps_at(lens, place)? {
            Some(made) => Ok(made <= 1),
            None => Ok(false),
        }
    }

    /// Goes upwards through the first `places` places. Returns the first place whose page differs
    /// from the page through a new lens, or takes more than one step.
    fn first_wrong_up(
        &mut self,
        lens: &mut CountingLens<'a>,
        places: u32,
    ) -> Result<Option<usize>, Refusal> {
        for place in 0..places {
            if !self.is_cheap_at(lens, place)? {
                return Ok(Some(place as usize));
            }
        }
        Ok(None)
    }

    /// Goes downwards through the first `places` places. Returns the first place whose page differs
    /// from the page through a new lens; or `places` if the pages take more than six steps each on
    /// average.
    fn first_wrong_down(
        &mut self,
        lens: &mut CountingLens<'a>,
        places: u32,
    ) -> Result<Option<usize>, Refusal> {
        let mut steps = 0u64;
        for passed in 0..places {
            let place = places - 1 - passed;
            match self.steps_at(lens, place)? {
                Some(made) => steps = steps.saturating_add(made),
                None => return Ok(Some(place as usize)),
            }
        }
        if steps <= 6 * places as u64 {
            Ok(None)
        } else {
            Ok(Some(places as usize))
        }
    }

    /// Goes up through the first `places` places and down again. Returns the first place that goes
    /// wrong.
    fn first_wrong_place(
        &mut self,
        lens: &mut CountingLens<'a>,
        places: u32,
    ) -> Result<Option<usize>, Refusal> {
        match self.first_wrong_up(lens, places)? {
            Some(place) => Ok(Some(place)),
            None => self.first_wrong_down(lens, places),
        }
    }
}

/// Goes up through the first `places` places and down again, with one lens. Returns the first place
/// that goes wrong.
fn first_wrong(rt: &impl Abort, alloc: Global, places: u32) -> Result<Option<usize>, Refusal> {
    let calls = AtomicU64::new(0);
    let mut chart = CountedChart::new(rt, alloc, &calls, 0)?;
    let mut lens = new_lens(rt, alloc);
    chart.first_wrong_place(&mut lens, places)
}

#[test]
fn forty_places_up_and_down(rt: HostRuntime) {
    none_wrong(&rt, first_wrong(&rt, rt.alloc(), 40));
}

/// Three hundred places are more than a lens keeps, and lie in three segments.
#[test]
fn three_hundred_places_up_and_down(rt: HostRuntime) {
    none_wrong(&rt, first_wrong(&rt, rt.alloc(), 300));
}

/// Two charts of the same steps, a lens that they share, and a lens of the second chart alone.
#[derive(Drop)]
struct TwoCharts<'a> {
    zero: CountedChart<'a>,
    one: CountedChart<'a>,
    shared: CountingLens<'a>,
    own: CountingLens<'a>,
}

impl<'a> TwoCharts<'a> {
    /// Two charts, from the initial values 0 and 1. Their registers have equal numbers of cells and
    /// words.
    fn new(rt: &impl Abort, alloc: Global, calls: &'a AtomicU64) -> Result<TwoCharts<'a>, Refusal> {
        let zero = CountedChart::new(rt, alloc, calls, 0)?;
        let one = CountedChart::new(rt, alloc, calls, 1)?;
        Ok(TwoCharts {
            zero,
            one,
            shared: new_lens(rt, alloc),
            own: new_lens(rt, alloc),
        })
    }

    /// Whether the pages of both charts at a place, through the shared lens, are as through a new
    /// lens, and the second chart's page also through its own lens.
    fn are_right_at(&mut self, place: u32) -> Result<bool, Refusal> {
        let of_zero = self.zero.steps_at(&mut self.shared, place)?.is_some();
        let of_one = self.one.steps_at(&mut self.shared, place)?.is_some();
        let alone = self.one.steps_at(&mut self.own, place)?.is_some();
        Ok(of_zero && of_one && alone)
    }

    /// Goes upwards through 40 places, and returns the first place at which `are_right_at` is
    /// false.
    fn first_wrong(&mut self) -> Result<Option<usize>, Refusal> {
        for place in 0..40 {
            if !self.are_right_at(place)? {
                return Ok(Some(place as usize));
            }
        }
        Ok(None)
    }
}

/// The first place that `TwoCharts::first_wrong` finds.
fn first_wrong_of_two(rt: &impl Abort, alloc: Global) -> Result<Option<usize>, Refusal> {
    let calls = AtomicU64::new(0);
    let mut charts = TwoCharts::new(rt, alloc, &calls)?;
    charts.first_wrong()
}

#[test]
fn charts_by_turns(rt: HostRuntime) {
    none_wrong(&rt, first_wrong_of_two(&rt, rt.alloc()));
}

/// The number of kinds of page that a place has.
const KINDS: u32 = 6;

/// The query for the page of a place that has kind number `kind`.
fn query_of(kind: u32, branch: Name, place: u32) -> Query
    ensures { is_at_branch result ≡ true }
{
    let (b, k) = (branch, place);
    match kind {
        0 => Query::State { b, k },
        1 => Query::Process { b, k, p: 0 },
        2 => Query::Bits { b, k },
        3 => Query::Pending { b, k },
        4 => Query::History { b, k },
        _ => Query::Verdict { b, k },
    }
}

impl<'a> CountedChart<'a> {
    /// Whether each kind of page of a place is the same through `lens` as through a new lens.
    fn are_all_same(&mut self, lens: &mut CountingLens<'a>, place: u32) -> Result<bool, Refusal> {
        for kind in 0..KINDS {
            let query = query_of(kind, self.main, place);
            if !self.is_page_same(lens, query)? {
                return Ok(false);
            }
        }
        Ok(true)
    }

    /// Whether a page is the same through `lens` as through a new lens.
    fn is_page_same(&mut self, lens: &mut CountingLens<'a>, query: Query) -> Result<bool, Refusal>
        requires { is_at_branch query ≡ true }
    {
        let slip = slip_of(self.alloc, &mut self.chart, query)?;
        is_same_once(self.alloc, slip, lens)
    }

    /// Goes up through 40 places and down again. Returns how many places were passed before a page
    /// of some kind differed from the page through a new lens.
    fn first_wrong_of_all_kinds(
        &mut self,
        lens: &mut CountingLens<'a>,
    ) -> Result<Option<usize>, Refusal> {
        for passed in 0..80u32 {
            let place = if passed < 40 { passed } else { 79 - passed };
            if !self.are_all_same(lens, place)? {
                return Ok(Some(passed as usize));
            }
        }
        Ok(None)
    }

    /// The text of the page of the state at a place.
    fn state_text(&mut self, lens: &mut CountingLens<'a>, place: u32) -> Result<Vec<u8>, Refusal> {
        let query = self.state_at(place);
        let slip = slip_of(self.alloc, &mut self.chart, query)?;
        text_once_through(self.alloc, slip, lens)
    }
}

/// What `CountedChart::first_wrong_of_all_kinds` finds with one lens.
fn first_wrong_of_all_kinds(rt: &impl Abort, alloc: Global) -> Result<Option<usize>, Refusal> {
    let calls = AtomicU64::new(0);
    let mut chart = CountedChart::new(rt, alloc, &calls, 0)?;
    let mut lens = new_lens(rt, alloc);
    chart.first_wrong_of_all_kinds(&mut lens)
}

#[test]
fn forty_places_of_each_kind(rt: HostRuntime) {
    none_wrong(&rt, first_wrong_of_all_kinds(&rt, rt.alloc()));
}

/// The text of the page of the state at the end of row `thousand-steps`.
const LAST_STATE: &[u8] =
    b"0: state main 1000 of 1000\n  p0 write 0 next ws 0\n  p1 idle\n  bits 1\n  words -\n";

impl<'a> CountedChart<'a> {
    /// Whether the page of the state after all 1,000 steps has the text `LAST_STATE`.
    fn shows_the_last_state(&mut self, lens: &mut CountingLens<'a>) -> Result<bool, Refusal> {
        Ok(self.state_text(lens, 1000)?.as_slice() == LAST_STATE)
    }

    /// Makes three pages of the last place. Page 0 is made before a choice is replaced; pages 1 and
    /// 2 are made after that, through the same lens and through a new lens. Returns the number of
    /// the first wrong page.
    fn first_wrong_after_an_edit(
        &mut self,
        lens: &mut CountingLens<'a>,
        new: &mut CountingLens<'a>,
    ) -> Result<Option<usize>, Refusal> {
        if !self.shows_the_last_state(lens)? {
            return Ok(Some(0));
        }
        let branch = self.main;
        let choice = Edit::Replace(&branch, 10, step_of(Kind::Go1));
        edit(self.alloc, &mut self.chart, &choice)?;
        if !self.shows_the_last_state(lens)? {
            return Ok(Some(1));
        }
        Ok((!self.shows_the_last_state(new)?).then_some(2))
    }
}

/// What `CountedChart::first_wrong_after_an_edit` finds.
fn first_wrong_after_an_edit(rt: &impl Abort, alloc: Global) -> Result<Option<usize>, Refusal> {
    let calls = AtomicU64::new(0);
    let mut chart = CountedChart::new(rt, alloc, &calls, 0)?;
    let mut lens = new_lens(rt, alloc);
    let mut new = new_lens(rt, alloc);
    chart.first_wrong_after_an_edit(&mut lens, &mut new)
}

#[test]
fn thousand_steps_through_a_used_lens(rt: HostRuntime) {
    none_wrong(&rt, first_wrong_after_an_edit(&rt, rt.alloc()));
}
