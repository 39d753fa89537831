//! What is kept of a re-evaluation on its way.
use crate::recording::checkpoint_overlay::CheckpointOverlay;
use crate::recording::finished::{Finished, finished_overlays};
use crate::recording::first_overlays::first_overlays;
use crate::work::{WorkSpan, window_end};
use mp_modules::Memory;
use mp_netlist::{ModuleId, Netlist};
use mp_partition::Run;
use std::alloc::{AllocError, Global};

/// For each module, by number, the source of its kept states and the place of its open work span, if it has one; the work spans so far; and a list of
/// the active modules, which are evaluated again.
#[derive(Drop)]
pub struct RerunRecorder {
    overlays: Vec<CheckpointOverlay>,
    places: Vec<Option<usize>>,
    work_spans: Vec<WorkSpan>,
    live: Vec<ModuleId>,
}

impl RerunRecorder {
    ghost use Rattle.std.specs.Prelude.{◌≡◌, ◌⊎◌, ℕ, ◌<◌, ◌≤◌, ◌++◌, ◌∷◌, [], Bool, true, Some, None, IsSome, IfOk, OnOk, length, map, option_map, slice_set};
    ghost use Rattle.std.specs.Arc.{arc_value};
    ghost use Rattle.std.specs.List.{Contains};
    ghost use Rattle.mp_netlist.specs.Circuit.{Circuit, IsCircuit, module_at};
    ghost use Rattle.mp_partition.specs.runs.Marks.{is_marked};
    ghost use Rattle.mp_partition.specs.runs.Outcomes.{Outcome};
    ghost use Rattle.mp_partition.specs.runs.Runs.{AreCheckpoints};
    ghost use Rattle.mp_depend.specs.recording.Recorders.{IsRecorder, IsSound, IsOver, CanKeep, CanLeave};
    ghost use Rattle.mp_depend.specs.recording.Keeping.{AreOldStates, KeepsState};
    ghost use Rattle.mp_depend.specs.recording.Live.{place_at, AreOpen, IsListed, JoinInWindow, LeavesAt};
    ghost use Rattle.mp_depend.specs.recording.Opened.{HasNoWorkSpan, HaveOpened, HaveJoined};
    ghost use Rattle.mp_depend.specs.work.WorkSpans.{AreWorkSpansTo, AreWorkSpans};

    /// Before time 0: the touched modules, which are marked by number, are live, each with the state in which it starts.
    pub fn first(alloc: Global, new: &Netlist, touched: &[bool]) -> Result<Self, AllocError>
        requires { length touched.now ≡ length new.now.modules }
        ensures { IfOk result (λ recorder. (old : Circuit) (run : Outcome) (live : ℕ → Bool) → ((m : ℕ) → live m ≡ is_marked touched.now m) → AreOldStates new.now run 0 live
            → IsRecorder old new.now run (λ m. 0) 0 live recorder) }
    {
        // Its contract says that the netlist is well formed.
        let _horizon = new.horizon();
        let overlays = first_overlays(alloc, new, touched)?;
        let places = vec![in alloc; None; touched.len()]?;
        let mut recorder = RerunRecorder {
            overlays,
            places,
            work_spans: Vec::new(alloc),
            live: Vec::new(alloc),
        };
        recorder.open_first(new, touched)?;
        Ok(recorder)
    }

    /// The live modules, in the order in which they have joined; a module that has left is among them as long as `list_live` isn't called.
    pub fn live(&self) -> &[ModuleId]
        ensures { result.now ≡ self.now.live.items }
    {
        self.live.as_slice()
    }

    /// Records that these modules have become active in the window with this end, in the block with this beginning. The work span of each begins with
    /// the block, its states after that are its own from now on, and it is listed as active. A module that already has a work span stays as it is.
    pub fn open_joined(
        &mut self,
        run: &Run,
        new: &Netlist,
        block: u32,
        to: u32,
        joined: &[ModuleId],
    ) -> Result<(), AllocError>
        requires sound { IsSound new.now self.old }
        requires stand { (m : ℕ) → Contains joined.now (record { 0 = m }) → IsSome (module_at new.now m) }
        requires within { block < new.now.horizon }
        ensures { OnOk result ((old : Circuit) (from : ℕ) (live now : ℕ → Bool) → JoinInWindow old new.now block from to joined.now live now
            → IsRecorder old new.now run.now (λ m. block) from live self.old → IsRecorder old new.now run.now (λ m. block) to now self.new) }
    {
        for id in joined {
            self.open_one(run, new, block, to, *id)?;
        }
        Ok(())
    }

    /// A live module's state before a border, which is the next one or that up to which its states are kept.
    pub fn keep(&mut self, id: ModuleId, time: u32, memory: Memory) -> Result<(), AllocError>
        requires { CanKeep self.old id.0 time }
        ensures listed { self.new.live ≡ self.old.live }
        ensures kept { OnOk result ((old new : Circuit) (run : Outcome) (kept later : ℕ → ℕ) (t : ℕ) (live : ℕ → Bool) → KeepsState new live kept later id.0 time memory
            → IsRecorder old new run kept t live self.old → IsRecorder old new run later t live self.new) }
    {
        self.overlays[id.0 as usize].keep(time, memory)?;
        Ok(())
    }

    /// Records that a module isn't active from a checkpoint on, up to which its states are kept: its work span ends there, and its later states are
    /// those of the old run.
    pub fn leave(&mut self, id: ModuleId, time: u32)
        requires { CanLeave self.old id.0 time }
        ensures listed { self.new.live ≡ self.old.live }
        ensures left { (old new : Circuit) (run : Outcome) (kept : ℕ → ℕ) (live now : ℕ → Bool) → LeavesAt new live now id.0 time → kept id.0 ≡ time
            → IsRecorder old new run kept time live self.old → IsRecorder old new run kept time now self.new }
    {
        let m = id.0 as usize;
        let Some(place) = self.places[m] else {
            unreachable!()
        };
        self.overlays[m].hand_back(time + 1);
        self.work_spans[place].last_end = time;
        self.places[m] = None;
    }

    /// Who has left is listed as live no longer.
    pub fn list_live(&mut self)
        ensures { (old new : Circuit) (run : Outcome) (kept : ℕ → ℕ) (t : ℕ) (live : ℕ → Bool) → IsRecorder old new run kept t live self.old → IsRecorder old new run kept t live self.new }
    {
        let places = self.places.as_slice();
        self.live.retain(|id| has_place(places, *id));
    }

    /// At the end: the states before the borders, those of the old run shared if they are these, and the work spans of work.
    pub fn finish(self, alloc: Global, run: &Run, new: &Netlist) -> Result<Finished, AllocError>
        requires { IsOver new.now run.now self }
        ensures kept { IfOk result (λ done. AreCheckpoints new.now (map (option_map arc_value) done.kept.items)) }
        ensures work_spans { IfOk result (λ done. (old : Circuit) (kept : ℕ → ℕ) (live : ℕ → Bool) → IsRecorder old new.now run.now kept new.now.horizon live self → AreWorkSpans old new.now done.work_spans.items) }
    {
        let RerunRecorder {
            overlays,
            work_spans,
            ..
        } = self;
        let kept = finished_overlays(alloc, run, new, overlays)?;
        Ok(Finished { kept, work_spans })
    }

    /// The work spans of the touched modules begin at time 0. They are listed as live.
    fn open_first(&mut self, new: &Netlist, touched: &[bool]) -> Result<(), AllocError>
        requires form { IsCircuit new.now }
        requires places { length self.old.places.items ≡ length new.now.modules }
        requires unopened { (m : ℕ) → place_at self.old.places.items m ≡ None }
        requires none { self.old.work_spans.items ≡ [] }
        ensures overlays { OnOk result (self.new.overlays ≡ self.old.overlays) }
        ensures worked { OnOk result ((old : Circuit) → AreWorkSpansTo old new.now 0 self.new.work_spans.items) }
        ensures opened { OnOk result (AreOpen new.now 0 (is_marked touched.now) self.new.places.items self.new.work_spans.items) }
        ensures listed { OnOk result (IsListed new.now (is_marked touched.now) self.new.live.items) }
    {
        let horizon = new.horizon();
        let first_end = window_end(new.least_delay(), horizon, 0);
        for m in 0..new.module_slots() {
            if is_touched(new, touched, ModuleId(m)) {
                self.open(WorkSpan {
                    module: ModuleId(m),
                    from: 0,
                    first_end,
                    last_end: horizon,
                })?;
            }
        }
        Ok(())
    }

    /// A module's work span is opened, and it is listed as live.
    fn open(&mut self, work_span: WorkSpan) -> Result<(), AllocError>
        requires { work_span.«module».0 < length self.old.places.items }
        ensures overlays { self.new.overlays ≡ self.old.overlays }
        ensures places { OnOk result (self.new.places.items ≡ slice_set self.old.places.items work_span.«module».0 (Some (length self.old.work_spans.items))) }
        ensures work_spans { OnOk result (self.new.work_spans.items ≡ self.old.work_spans.items ++ work_span ∷ []) }
        ensures live { OnOk result (self.new.live.items ≡ self.old.live.items ++ work_span.«module» ∷ []) }
    {
        self.places[work_span.module.0 as usize] = Some(self.work_spans.len());
        self.work_spans.push(work_span)?;
        self.live.push(work_span.module)?;
        Ok(())
    }

    /// Opens the work span of a module that has none yet: its states after the beginning of the block are its own, and it is listed as active.
    fn open_one(
        &mut self,
        run: &Run,
        new: &Netlist,
        block: u32,
        to: u32,
        id: ModuleId,
    ) -> Result<(), AllocError>
        requires sound { IsSound new.now self.old }
        requires stands { IsSome (module_at new.now id.0) }
        requires within { block < new.now.horizon }
        ensures sound { OnOk result (IsSound new.now self.new) }
        ensures opened { OnOk result ((now : ℕ → Bool) → now id.0 ≡ true → HaveOpened new.now block to now self.old.places.items self.new.places.items self.old.work_spans.items self.new.work_spans.items) }
        ensures joined { OnOk result ((now : ℕ → Bool) → now id.0 ≡ true → HaveJoined new.now run.now block now self.old.places.items self.new.places.items self.old.overlays.items self.new.overlays.items) }
        ensures done { OnOk result ((now : ℕ → Bool) → HasNoWorkSpan new.now now self.new.places.items id.0 → ⊥) }
        ensures listed { OnOk result ((now : ℕ → Bool) (m : ℕ) → HasNoWorkSpan new.now now self.old.places.items m → HasNoWorkSpan new.now now self.new.places.items m ⊎ Contains self.new.live.items (record { 0 = m })) }
        ensures more { OnOk result ((m : ℕ) → Contains self.old.live.items (record { 0 = m }) → Contains self.new.live.items (record { 0 = m })) }
    {
        let m = id.0 as usize;
        if self.places[m].is_some() {
            return Ok(());
        }
        let alloc = *self.overlays.allocator();
        let end = new.horizon();
        self.overlays[m].take_over(alloc, run, id, block + 1, end)?;
        self.open(WorkSpan {
            module: id,
            from: block,
            first_end: to,
            last_end: end,
        })?;
        Ok(())
    }
}

ghost use Rattle.std.specs.Prelude.{◌≡◌, ◌↔◌, true, IsSome, IsTrue};
ghost use Rattle.std.specs.Option.{is_some};
ghost use Rattle.mp_partition.specs.runs.Marks.{is_marked};
ghost use Rattle.mp_depend.specs.recording.Live.{place_at};
ghost use Rattle.mp_netlist.specs.Circuit.{module_at};

/// Whether a module has an open work span.
fn has_place(places: &[Option<usize>], id: ModuleId) -> bool
    ensures { result ≡ is_some (place_at places.now id.0) }
{
    match places.get(id.0 as usize) {
        Some(place) => place.is_some(),
        None => false,
    }
}

/// Whether a module exists and is marked as touched.
fn is_touched(netlist: &Netlist, touched: &[bool], id: ModuleId) -> bool
    ensures { IsTrue result ↔ (IsSome (module_at netlist.now id.0) × (is_marked touched.now id.0 ≡ true)) }
{
    match (netlist.module(id), touched.get(id.0 as usize)) {
        (Some(_), Some(mark)) => *mark,
        _ => false,
    }
}
