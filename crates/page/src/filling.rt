// S19.2: a page filled from a state of a walk: a run for each line, and blank lines where no model is left.
ghost use Rattle.std.specs.Prelude.{◌≡◌, ◌≤◌, length};
ghost use Rattle.walk.specs.InnerStack.{Tree};
ghost use Rattle.enumeration.specs.InnerScope.{visible_in};
ghost use Rattle.enumeration.specs.InnerState.{position_in, Follows, Holds};
ghost use Rattle.page.specs.PageLines.{page_lines, page_size};
ghost use Rattle.page.specs.InnerPages.{blanked, Fillable, LinesFilled, PageFilled};

use crate::Paged;
use crate::lines::{PAGE_LINES, put_blank, put_line};
use enumeration::{AMPLE_BUDGET, Answer, State, Task};

// How many lines are filled, and where the walk stands behind them.
#[derive(Clone, Copy)]
pub struct Lines {
    count: usize,
    state: State,
}

// Lines of the next models from a state, until the page is full or a run brings none.
fn fill_lines(task: &Task, start: State, serial: u64, page: &mut [u8]) -> Lines
    requires { Fillable task.now.formula task.now.scope start serial page.old }
    ensures { (K : Tree) → Follows task.now.formula task.now.scope K → Holds K start
        → LinesFilled K task.now.formula.variables (visible_in task.now.scope) serial (position_in start) page.old page.new result }
{
    let n = task.formula.variables;
    let mask = task.visible();
    let mut state = start;
    for i in 0..PAGE_LINES {
        let run = task.go_on(state, AMPLE_BUDGET);
        state = run.state;
        let Answer::Model(model) = run.answer else {
            return Lines { count: i, state };
        };
        put_line(page, i, serial + i as u64, n, mask, model, run.steps);
    }
    Lines {
        count: PAGE_LINES,
        state,
    }
}

// Blank lines from line i on.
fn blank_rest(page: &mut [u8], i: usize)
    requires { (i ≤ page_lines) × (page_size ≤ length page.old) }
    ensures { page.new ≡ blanked i page.old }
{
    for j in i..PAGE_LINES {
        put_blank(page, j);
    }
}

// The whole page from a state, and the checkpoint behind its last model, or that of the end.
pub fn fill_page(task: &Task, start: State, serial: u64, page: &mut [u8]) -> Paged
    requires { Fillable task.now.formula task.now.scope start serial page.old }
    ensures { (K : Tree) → Follows task.now.formula task.now.scope K → Holds K start
        → PageFilled K task.now.formula.variables (visible_in task.now.scope) serial (position_in start) page.old page.new result }
{
    let lines = fill_lines(task, start, serial, page);
    blank_rest(page, lines.count);
    Paged {
        lines: lines.count,
        checkpoint: lines.state.checkpoint(),
    }
}
