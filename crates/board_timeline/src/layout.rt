//! The rows of a plan, one under the other.

ghost use Rattle.std.specs.Prelude.{◌≡◌, ◌++◌, IfOk, OnOk};
ghost use Rattle.board_timeline.specs.Bars.{strip_seen};
ghost use Rattle.board_timeline.specs.Layout as spec;

use crate::bars::{Strip, add_row};
use crate::canvas::Canvas;
use crate::frames::{Lane, ROWS_TOP, sum};
use crate::legend::{add_label, add_legend, add_lines};
use crate::noted::Track;
use crate::row::Row;
use crate::shape::{Font, Shape};
use crate::words::{row_name, row_text};
use board_decisions::place::item_at;
use flow_model::{JobPlan, Plan, RunPlan, Sequence};
use std::alloc::{AllocError, Global};

/// How wide a picture is.
const WIDTH: u64 = 1410;

/// What is left free below the rows.
const MARGIN: u64 = 10;

/// How far below the top of a row its label has its base line.
const BASE_LINE: u64 = 11;

/// How high the row of a run is, what is left free above it, and how far below its top the next row begins.
const RUN_HEIGHT: u64 = 16;

const RUN_GAP: u64 = 6;

const RUN_STEP: u64 = 17;

/// How high the row of a job is, what is left free above it, and how far below its top the next row begins.
const JOB_HEIGHT: u64 = 14;

const JOB_GAP: u64 = 4;

const JOB_STEP: u64 = 15;

/// How far below the top of a leg's row the next row begins, with labels and without.
const LABELLED_LEG_STEP: u64 = 16;

const BARE_LEG_STEP: u64 = 6;

/// The most legs of a job that have labels.
const MOST_LABELLED: usize = 16;

/// Where the labels of runs, jobs and legs begin.
const RUN_LEFT: u64 = 8;

const JOB_LEFT: u64 = 16;

const LEG_LEFT: u64 = 28;

/// A picture: its size, and what stands in it.
#[derive(Drop)]
pub struct Sheet {
    pub width: u64,
    pub height: u64,
    pub shapes: Sequence<Shape>,
}

/// What a chart shows: the rows that were noted of a record, and how many lines that has.
#[derive(Clone, Copy)]
struct Chart<'a> {
    lines: u64,
    track: &'a Track,
}

/// The next leg, and where its row begins.
#[derive(Clone, Copy)]
struct Cursor {
    leg: u64,
    top: u64,
}

/// Adds a row with its label.
fn add_labelled(
    canvas: &mut Canvas,
    strip: &Strip<'_>,
    row: &Row,
    font: Font,
    left: u64,
) -> Result<(), AllocError>
    ensures { OnOk result (canvas.new ≡ canvas.old
        ++ spec.labelled (strip_seen strip.now) row.now font left) }
{
    let text = row_text(canvas.alloc(), strip.name, row)?;
    let line = sum(strip.lane.top, BASE_LINE)?;
    add_label(canvas, font, left, line, text)?;
    add_row(canvas, strip, row)
}

/// Whether each leg of a job that has so many has a label.
fn are_labelled(count: usize) -> bool
    ensures { result ≡ spec.are_labelled count }
{
    count <= MOST_LABELLED
}

/// How far below the top of a leg's row the next row begins, of a job that has so many.
fn leg_step(count: usize) -> u64
    ensures { result ≡ spec.leg_step count }
{
    if are_labelled(count) {
        LABELLED_LEG_STEP
    } else {
        BARE_LEG_STEP
    }
}

/// Adds the row of a leg, with a label where the job has few legs.
fn add_leg_row(
    canvas: &mut Canvas,
    strip: &Strip<'_>,
    row: &Row,
    count: usize,
) -> Result<(), AllocError>
    ensures { OnOk result (canvas.new ≡ canvas.old
        ++ spec.leg_row (strip_seen strip.now) row.now count) }
{
    if are_labelled(count) {
        add_labelled(canvas, strip, row, Font::Leg, LEG_LEFT)
    } else {
        add_row(canvas, strip, row)
    }
}

/// Adds the row of the next leg of a job, if it was noted.
fn add_leg(
    canvas: &mut Canvas,
    chart: &Chart<'_>,
    job: &JobPlan,
    at: Cursor,
) -> Result<(), AllocError>
    ensures { OnOk result (canvas.new ≡ canvas.old
        ++ spec.leg_shapes chart.now.lines chart.now.track.now.legs job.now at) }
{
    let Some(row) = item_at(&chart.track.legs, at.leg as usize) else {
        return Ok(());
    };
    let count = job.legs.len();
    let name = row_name(canvas.alloc(), "leg ", at.leg, job.name.as_str())?;
    let lane = Lane {
        lines: chart.lines,
        top: at.top,
        height: leg_step(count) - 1,
    };
    let strip = Strip {
        lane,
        name: name.as_slice(),
        steps: job.steps.as_slice(),
    };
    add_leg_row(canvas, &strip, row, count)
}

/// The place after the row of a leg.
fn after_leg(at: Cursor, count: usize) -> Result<Cursor, AllocError>
    ensures { IfOk result (λ next. next ≡ spec.after_leg at count) }
{
    let leg = sum(at.leg, 1)?;
    let top = sum(at.top, leg_step(count))?;
    Ok(Cursor { leg, top })
}

/// Adds the rows of the legs of a job, and gives the place after them.
fn add_legs(
    canvas: &mut Canvas,
    chart: &Chart<'_>,
    job: &JobPlan,
    first: Cursor,
) -> Result<Cursor, AllocError>
    ensures shapes { OnOk result (canvas.new ≡ canvas.old
        ++ spec.legs_shapes chart.now.lines chart.now.track.now.legs job.now first job.now.legs) }
    ensures next { IfOk result (λ next. next ≡ spec.after_legs job.now first job.now.legs) }
{
    let legs = job.legs.as_slice();
    let mut at = first;
    for _leg in legs {
        add_leg(canvas, chart, job, at)?;
        at = after_leg(at, job.legs.len())?;
    }
    Ok(at)
}

/// Adds the row of a job from this height on, if it was noted.
fn add_job_row(
    canvas: &mut Canvas,
    chart: &Chart<'_>,
    job: &JobPlan,
    top: u64,
) -> Result<(), AllocError>
    ensures { OnOk result (canvas.new ≡ canvas.old
        ++ spec.job_row chart.now.lines chart.now.track.now.jobs job.now top) }
{
    let Some(row) = item_at(&chart.track.jobs, job.number as usize) else {
        return Ok(());
    };
    let name = row_name(canvas.alloc(), "job ", job.number, job.name.as_str())?;
    let lane = Lane {
        lines: chart.lines,
        top,
        height: JOB_HEIGHT,
    };
    let strip = Strip {
        lane,
        name: name.as_slice(),
        steps: &[],
    };
    add_labelled(canvas, &strip, row, Font::Job, JOB_LEFT)
}

/// Adds the row of a job and those of its legs, and gives the place after them.
fn add_job(
    canvas: &mut Canvas,
    chart: &Chart<'_>,
    job: &JobPlan,
    at: Cursor,
) -> Result<Cursor, AllocError>
    ensures shapes { OnOk result (canvas.new ≡ canvas.old
        ++ spec.job_shapes chart.now.lines chart.now.track.now job.now at) }
    ensures next { IfOk result (λ next. next ≡ spec.after_job at job.now) }
{
    let top = sum(at.top, JOB_GAP)?;
    add_job_row(canvas, chart, job, top)?;
    let top = sum(top, JOB_STEP)?;
    add_legs(canvas, chart, job, Cursor { leg: at.leg, top })
}

/// Adds the rows of jobs and their legs, and gives the place after them.
fn add_jobs(
    canvas: &mut Canvas,
    chart: &Chart<'_>,
    jobs: &[JobPlan],
    first: Cursor,
) -> Result<Cursor, AllocError>
    ensures shapes { OnOk result (canvas.new ≡ canvas.old
        ++ spec.jobs_shapes chart.now.lines chart.now.track.now first jobs.now) }
    ensures next { IfOk result (λ next. next ≡ spec.after_jobs first jobs.now) }
{
    let mut at = first;
    for job in jobs {
        at = add_job(canvas, chart, job, at)?;
    }
    Ok(at)
}

/// Adds the row of the run at a place from this height on, if it was noted.
fn add_run_row(
    canvas: &mut Canvas,
    chart: &Chart<'_>,
    place: usize,
    run: &RunPlan,
    top: u64,
) -> Result<(), AllocError>
    ensures { OnOk result (canvas.new ≡ canvas.old
        ++ spec.run_row chart.now.lines chart.now.track.now.runs place run.now top) }
{
    let Some(row) = item_at(&chart.track.runs, place) else {
        return Ok(());
    };
    let name = row_name(canvas.alloc(), "run ", place as u64, run.flow.as_str())?;
    let lane = Lane {
        lines: chart.lines,
        top,
        height: RUN_HEIGHT,
    };
    let strip = Strip {
        lane,
        name: name.as_slice(),
        steps: &[],
    };
    add_labelled(canvas, &strip, row, Font::Run, RUN_LEFT)
}

/// Adds the row of a run and those of its jobs, and gives the place after them.
fn add_run(
    canvas: &mut Canvas,
    chart: &Chart<'_>,
    place: usize,
    run: &RunPlan,
    at: Cursor,
) -> Result<Cursor, AllocError>
    ensures shapes { OnOk result (canvas.new ≡ canvas.old
        ++ spec.run_shapes chart.now.lines chart.now.track.now place run.now at) }
    ensures next { IfOk result (λ next. next ≡ spec.after_run at run.now) }
{
    let top = sum(at.top, RUN_GAP)?;
    add_run_row(canvas, chart, place, run, top)?;
    let top = sum(top, RUN_STEP)?;
    let first = Cursor { leg: at.leg, top };
    add_jobs(canvas, chart, run.jobs.as_slice(), first)
}

/// Adds the rows of runs, and gives the place after them.
fn add_runs(canvas: &mut Canvas, chart: &Chart<'_>, runs: &[RunPlan]) -> Result<Cursor, AllocError>
    ensures shapes { OnOk result (canvas.new ≡ canvas.old
        ++ spec.runs_shapes chart.now.lines chart.now.track.now 0 spec.first runs.now) }
    ensures next { IfOk result (λ next. next ≡ spec.after_runs spec.first runs.now) }
{
    let mut at = Cursor {
        leg: 0,
        top: ROWS_TOP,
    };
    for (place, run) in runs.iter().enumerate() {
        at = add_run(canvas, chart, place, run, at)?;
    }
    Ok(at)
}

/// The picture of a plan along a record of so many lines, of which these rows were noted.
pub fn timeline_shapes(
    alloc: Global,
    plan: &Plan,
    track: &Track,
    lines: u64,
) -> Result<Sheet, AllocError>
    ensures { IfOk result (λ sheet. sheet ≡ spec.sheet plan.now track.now lines) }
{
    let mut canvas = Canvas::empty(alloc);
    let chart = Chart { lines, track };
    add_legend(&mut canvas)?;
    let end = add_runs(&mut canvas, &chart, plan.runs.as_slice())?;
    add_lines(&mut canvas, lines, end.top)?;
    let height = sum(end.top, MARGIN)?;
    Ok(Sheet {
        width: WIDTH,
        height,
        shapes: canvas.into_shapes(),
    })
}
