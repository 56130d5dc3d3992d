// The run of a domain by rules.
ghost use Rattle.std.specs.Prelude.{◌≡◌, ◌+◌, ◌*◌, ◌<◌, ◌≤◌, ◌↔◌, length, IsTrue, IfOk, IfSome, IfNone, OnOk, OnErr};
ghost use Rattle.std.specs.List.{Contains};
ghost use Rattle.geom_check.specs.Domains.{domain_numbers};
ghost use Rattle.mesh_run.specs.Mesh.{NamesItsPoints};
ghost use Rattle.mesh_run.specs.Opening.{mesh_points};
ghost use Rattle.mesh_run.specs.Remembered.{AreCovering};
ghost use Rattle.mesh_run.specs.Runs.{pieces_by};
ghost use Rattle.mesh_run.specs.Steps.{IsNext, NothingApplies, IsSpent};
ghost use Rattle.mesh_run.specs.Trials.{DoesPay, DoesPayAll, IsPaid};

use super::applying::{copy_of, put};
use super::ground::Ground;
use super::left::{points_of, rows_of};
use super::looked_again::{Change, look_at_all};
use super::opening::{number_mesh, opening_of};
use super::refusals::{Refusals, forget_all, no_refusals, reaches_of};
use super::search::{Scene, find_next};
use super::touched::{drop_forgotten, drop_stale, hits_near};
use super::worklist::Worklist;
use super::{Application, Applications, DomainRun, End, FrontRows, OpeningLines, Options, Stepped};
use front_chain::Front;
use geom_check::Geometry;
use grid_geom::Points;
use rule_maps::RuleSet;
use rule_match::reach_box;
use size_field::{Pieces, Sizes, sizes_of};
use std::alloc::{AllocError as OutOfMemory, Global};
use std::marker::Model;
use std::sync::ledger::Ledger;
use steps::Steps;

/// The run of a domain by rules, as far as it has come. It is seen as its basis, its applications so
/// far, and the state that these have come to, which is that of the definition; and beside them as the
/// number of trials that are due: pairs of a front line and a class at which it isn't known to be refused.
#[derive(Drop)]
pub struct Run<'a> {
    domain: u32,
    options: Options,
    sizes: Sizes,
    rules: &'a RuleSet<'a>,
    // how many points were there at the opening, and the opening lines
    opened: usize,
    lines: OpeningLines,
    front: Front,
    applications: Vec<Application>,
    refusals: Refusals,
    // what is to be tried, where that is known
    work: Option<Worklist>,
}

impl<'a> Model for Run<'a> {
    ghost use Rattle.mesh_run.specs.RunState.{run_of};
    ghost use Rattle.mesh_run.specs.Remembered.{DoesRemember};
    ghost use Rattle.mesh_run.specs.Trials.{RunView, due};

    ghost Value = { RunView };

    ghost view = { λ r. record {
      run = run_of (record {
        domain = r.domain;
        options = r.options;
        sizes = r.sizes;
        rules = r.rules.now;
        opened = r.opened;
        lines = r.lines;
        front = r.front;
        applications = r.applications.items;
      });
      due = due r.options.last r.refusals.least.items r.front.lines;
    } };

    ghost invariant = { λ r. DoesRemember (run_of (record {
      domain = r.domain;
      options = r.options;
      sizes = r.sizes;
      rules = r.rules.now;
      opened = r.opened;
      lines = r.lines;
      front = r.front;
      applications = r.applications.items;
    })) r.refusals r.work };
}

impl<'a> Run<'a> {
    ghost use Rattle.mesh_run.specs.RunState.{IsStepped, DoesTakeArea, GoesOn, IsEndOfRun, AreOptions, area_left, domain_run, opened_run, setting_by, run_after};

    /// The run of a domain before its first application. Each opening line is due at each class.
    pub fn open_on(
        alloc: Global,
        ground: &Ground<'_, 'a>,
        domain: u32,
    ) -> Result<Run<'a>, OutOfMemory>
        requires domain { Contains (domain_numbers ground.now.geometry.now.segments) domain }
        requires options { AreOptions ground.now.options.now }
        requires pieces { ground.now.pieces.now
            ≡ pieces_by ground.now.geometry.now ground.now.options.now }
        requires mesh { ground.now.mesh.now ≡ mesh_points ground.now.pieces.now }
        requires reaches { AreCovering ground.now.rules.now ground.now.reaches.now }
        ensures run { IfOk result (λ run. run.run ≡ opened_run ground.now.geometry.now
            ground.now.rules.now ground.now.options.now domain) }
        ensures due { IfOk result (λ run. run.due
            ≡ ground.now.options.now.last * length run.run.basis.lines) }
    {
        let geometry = ground.geometry;
        let options = ground.options;
        let segments = geometry.segments();
        let opening = opening_of(
            alloc,
            domain,
            segments,
            ground.pieces.as_slice(),
            ground.mesh,
        )?;
        let points = opening.points.as_slice();
        let opened = points.len();
        let front = Front::open(alloc, points, opening.lines.as_slice())?;
        let (greatest, grading) = (options.greatest, options.grading);
        let sizes = sizes_of(alloc, geometry, ground.pieces, domain, greatest, grading)?;
        let refusals = no_refusals(alloc, ground.reaches)?;
        Ok(Run {
            domain,
            options: *options,
            sizes,
            rules: ground.rules,
            opened,
            lines: opening.lines,
            front,
            applications: Vec::new(alloc),
            refusals,
            work: None,
        })
    }

    /// The run of a domain of the geometry before its first application. Each opening line is due at each class.
    ///
    /// The pieces are those into which the options' sizes cut the geometry's segments, the options in
    /// their ranges.
    pub fn open(
        alloc: Global,
        pieces: &Pieces,
        geometry: &Geometry,
        rules: &'a RuleSet<'a>,
        domain: u32,
        options: &Options,
    ) -> Result<Run<'a>, OutOfMemory>
        requires domain { Contains (domain_numbers geometry.now.segments) domain }
        requires options { AreOptions options.now }
        requires pieces { pieces.now ≡ pieces_by geometry.now options.now }
        ensures run { IfOk result (λ run. run.run
            ≡ opened_run geometry.now rules.now options.now domain) }
        ensures due { IfOk result (λ run. run.due
            ≡ options.now.last * length run.run.basis.lines) }
    {
        let mesh = number_mesh(alloc, pieces.as_slice())?.points(alloc)?;
        let reaches = reaches_of(alloc, rules)?;
        let ground = Ground {
            pieces,
            mesh: &mesh,
            geometry,
            rules,
            reaches: &reaches,
            options,
        };
        Run::open_on(alloc, &ground, domain)
    }

    /// The application that comes next: that of the least class at which there is one, and there of the
    /// least line. What is found of refused lines on the way is remembered.
    fn next_application<L: Ledger>(
        &mut self,
        alloc: Global,
        steps: &mut Steps<L>,
    ) -> Result<Option<Application>, OutOfMemory>
        ensures next { IfOk result
            (λ found. IfSome found
            (IsNext (setting_by self.old.run.basis) self.old.run.state)) }
        ensures none { IfOk result
            (λ found. IfNone found
            (NothingApplies (setting_by self.old.run.basis) self.old.run.state)) }
        ensures stands { self.new.run ≡ self.old.run }
        ensures few { steps.new ≤ steps.old + self.old.due }
        ensures found { OnOk result (steps.new + self.new.due ≤ steps.old + self.old.due + 1) }
        ensures refused { IfOk result (λ found. IfNone found
            (steps.new + self.new.due ≤ steps.old + self.old.due)) }
    {
        let scene = Scene {
            front: &self.front,
            sizes: &self.sizes,
            rules: self.rules,
            last: self.options.last,
        };
        find_next(alloc, &scene, &mut self.refusals, &mut self.work, steps)
    }

    /// Makes the application that comes next, and answers a copy of it. All memory that it
    /// can't do without is taken before the run changes.
    fn apply(&mut self, alloc: Global, application: Application) -> Result<Application, OutOfMemory>
        requires next { IsNext (setting_by self.old.run.basis) self.old.run.state application }
        ensures applied { OnOk result (self.new.run ≡ run_after self.old.run application) }
        ensures copied { IfOk result (λ a. a ≡ application) }
        ensures falls { OnOk result (area_left self.new.run < area_left self.old.run) }
        ensures pays { OnOk result (IsPaid (setting_by self.old.run.basis) self.old.run.state
            application self.old.due (self.new.due + 1)) }
        ensures stands { OnErr result (self.new.run ≡ self.old.run) }
    {
        let copy = copy_of(alloc, &application)?;
        self.applications.reserve(1)?;
        let made = application.made.as_slice().len();
        let elements = application.elements.as_slice().len();
        self.front.reserve(made, elements)?;
        // the front is as a front is, the rule one that a reader gives, and the base line has a frame: so the
        // application may be put on it, and it touches the base line
        let _lines = self.front.lines();
        let _rule = self.rules.get(application.rule).rule();
        let _reach = reach_box(&self.front, &self.sizes, application.line, 0);
        let hits = hits_near(alloc, &self.refusals, &self.front, &application)?;
        drop_stale(&mut self.refusals.notes, &self.front, hits.as_slice());
        let change = Change {
            points: self.front.points(),
            first: self.front.next_number(),
        };
        put(&mut self.front, &mut self.work, &application);
        let scene = Scene {
            front: &self.front,
            sizes: &self.sizes,
            rules: self.rules,
            last: self.options.last,
        };
        look_at_all(
            alloc,
            &scene,
            &change,
            &mut self.refusals,
            &mut self.work,
            hits.as_slice(),
        );
        drop_forgotten(&mut self.refusals, hits.as_slice());
        self.applications.push_reserved(application);
        Ok(copy)
    }

    /// Makes the next application, or says that there is none: since no front is left, or since nothing
    /// applies to the front that is. It doesn't look at the limit.
    ///
    /// What it makes of trials, calls of `best`, and what is then due, are together no more than was due; but
    /// for each line that joins or is touched as many more are due as there are classes.
    ///
    /// Errors: want of memory, and then the run is as before, and no more trials were made than were due.
    pub fn step<L: Ledger>(
        &mut self,
        alloc: Global,
        steps: &mut Steps<L>,
    ) -> Result<Stepped, OutOfMemory>
        ensures stepped { IfOk result (IsStepped self.old.run self.new.run) }
        ensures falls { IfOk result (DoesTakeArea self.old.run self.new.run) }
        ensures pays { IfOk result (DoesPay self.old.run (steps.old + self.old.due)
            (steps.new + self.new.due)) }
        ensures stands { OnErr result (self.new.run ≡ self.old.run) }
        ensures few { OnErr result (steps.new ≤ steps.old + self.old.due) }
    {
        if self.front.lines() == 0 {
            return Ok(Stepped::Done);
        }
        match self.next_application(alloc, steps)? {
            None => Ok(Stepped::Stuck),
            Some(application) => Ok(Stepped::Applied(self.apply(alloc, application)?)),
        }
    }

    /// Forgets which lines were refused, and gives the memory for it back: the next step tries each front line
    /// at each class. What the run does from here on is the same, and only takes longer.
    pub fn forget(&mut self, alloc: Global)
        ensures stands { self.new.run ≡ self.old.run }
        ensures due { self.new.due
            ≡ self.old.run.basis.options.last * length self.old.run.state.front }
    {
        forget_all(alloc, &mut self.refusals);
        self.work = None;
    }

    /// Whether as many applications were made as are allowed.
    fn is_spent(&self) -> bool
        ensures { IsTrue result ↔ IsSpent self.now.run.basis.options.limit
            (length self.now.run.applications) }
    {
        match self.options.limit {
            Some(limit) => limit <= self.applications.len() as u64,
            None => false,
        }
    }

    /// How the run ends that may make no further application: stopped only where there is one to make.
    fn end_here<L: Ledger>(
        &mut self,
        alloc: Global,
        steps: &mut Steps<L>,
    ) -> Result<End, OutOfMemory>
        requires { IsSpent self.old.run.basis.options.limit (length self.old.run.applications) }
        ensures ended { IfOk result (IsEndOfRun self.old.run) }
        ensures stands { self.new.run ≡ self.old.run }
        ensures few { steps.new ≤ steps.old + self.old.due }
    {
        if self.front.lines() == 0 {
            return Ok(End::Done);
        }
        match self.next_application(alloc, steps)? {
            Some(_) => Ok(End::Stopped),
            None => Ok(End::Stuck),
        }
    }

    /// Makes one application after another until no front is left, nothing applies, or as many were made
    /// as are allowed. Each takes at least 1 from the front's doubled area, so it ends. No more trials, calls
    /// of `best`, are made than were due, and for each line that joins or is touched as many as there are
    /// classes.
    ///
    /// Errors: want of memory, and then the run has gone on as far as memory went.
    pub fn run<L: Ledger>(
        &mut self,
        alloc: Global,
        steps: &mut Steps<L>,
    ) -> Result<End, OutOfMemory>
        ensures goes_on { GoesOn self.old.run self.new.run }
        ensures ended { IfOk result (IsEndOfRun self.new.run) }
        ensures pays { DoesPayAll self.old.run self.new.run (steps.old + self.old.due) steps.new }
    {
        while !self.is_spent() {
            match self.step(alloc, steps)? {
                Stepped::Applied(_) => {}
                Stepped::Done => return Ok(End::Done),
                Stepped::Stuck => return Ok(End::Stuck),
            }
        }
        self.end_here(alloc, steps)
    }

    /// What is kept of the run, with its end.
    pub fn into_domain_run(self, alloc: Global, end: End) -> Result<DomainRun, OutOfMemory>
        ensures run { IfOk result (λ run. run ≡ domain_run self.entry.run end) }
        ensures names { OnOk result (NamesItsPoints (domain_run self.entry.run end)) }
    {
        let points = points_of(alloc, &self.front)?;
        let front = rows_of(alloc, &self.front)?;
        Ok(DomainRun {
            domain: self.domain,
            points: Points::from_vec(points),
            opened: self.opened,
            lines: self.lines,
            applications: Applications::from_vec(self.applications),
            front: FrontRows::from_vec(front),
            end,
        })
    }
}
