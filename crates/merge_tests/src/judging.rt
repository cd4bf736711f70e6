// The judge of windows: what it finds if memory is ample, and that each window has the whole budget.
use crate::cuts::{and_of, two_ways};
use cut_window::{Finding, Window};
use expand_work::{Crew, NoMonitor, Workers};
use pair_graph::{Graph, Literal};
use std::alloc::{AllocError, Global};
use std::sync::Wait;
use std::test::Fail;
use std::thread::Threads;
use wave_engine::Engine;
use wave_judge::{WaveJudge, WindowBound};

/// What a judge with this budget finds of two literals over a window, at the last of so many tries, and its work in all.
fn found<R: Threads + Wait + Sync>(
    rt: &R,
    alloc: Global,
    over: (&Graph, &Window),
    pair: (Literal, Literal),
    nodes: u32,
    tries: u32,
) -> Result<(Finding, u64), AllocError> {
    let (graph, window) = over;
    let (first, second) = pair;
    let bound = WindowBound::of(nodes, &NoMonitor);
    let crew = Crew {
        rt,
        alloc,
        workers: Workers::new(1),
        monitor: &bound,
    };
    let engine = Engine::new(&crew)?;
    let mut judge = WaveJudge::new(engine, nodes);
    for _ in 1..tries {
        let _ = judge.judge(nodes, graph, window, first, second)?;
    }
    let last = judge.judge(nodes, graph, window, first, second)?;
    Ok((last, judge.work()))
}

// (a AND b) AND c and a AND (b AND c), over the variables 1, 2 and 3.
#[test]
fn judge_of_equals(rt: HostRuntime) -> Result<(), Fail> {
    let (graph, first, second) = two_ways(rt.alloc())?;
    let window = Window::new(rt.alloc(), [1, 2, 3].as_slice(), [4, 5, 6, 7].as_slice())?;
    let (equal, _) = found(&rt, rt.alloc(), (&graph, &window), (first, second), 100, 1)?;
    assert!(rt; matches!(equal, Finding::Equal));
    let pair = (first, second.negate());
    let (complement, _) = found(&rt, rt.alloc(), (&graph, &window), pair, 100, 1)?;
    assert!(rt; matches!(complement, Finding::Complement));
    Ok(())
}

// a AND b and a AND b AND c differ if c is 0.
#[test]
fn judge_of_different_ones(rt: HostRuntime) -> Result<(), Fail> {
    let (graph, first, _) = two_ways(rt.alloc())?;
    let window = Window::new(rt.alloc(), [1, 2, 3].as_slice(), [4, 5].as_slice())?;
    let pair = (Literal::new(4, false), first);
    let (finding, _) = found(&rt, rt.alloc(), (&graph, &window), pair, 100, 1)?;
    let bits = match &finding {
        Finding::Differ(bits) => Some(bits.as_slice()),
        _ => None,
    };
    assert!(rt; bits == Some([true, true, false].as_slice()));
    Ok(())
}

// A window that lacks an operand shows nothing, and neither does one whose diagrams do not fit.
#[test]
fn judge_that_gives_up(rt: HostRuntime) -> Result<(), Fail> {
    let (graph, first, second) = two_ways(rt.alloc())?;
    let lacking = Window::new(rt.alloc(), [1, 2].as_slice(), [4, 5, 6, 7].as_slice())?;
    let (nothing, _) = found(&rt, rt.alloc(), (&graph, &lacking), (first, second), 100, 1)?;
    assert!(rt; matches!(nothing, Finding::GivenUp));
    let window = Window::new(rt.alloc(), [1, 2, 3].as_slice(), [4, 5, 6, 7].as_slice())?;
    let (refused, _) = found(&rt, rt.alloc(), (&graph, &window), (first, second), 4, 1)?;
    assert!(rt; matches!(refused, Finding::GivenUp));
    Ok(())
}

// The diagrams of this window have six nodes, which count as work, and so do four for each of its seven nodes.
#[test]
fn whole_budget_for_each_window(rt: HostRuntime) -> Result<(), Fail> {
    let (graph, first, second) = two_ways(rt.alloc())?;
    let window = Window::new(rt.alloc(), [1, 2, 3].as_slice(), [4, 5, 6, 7].as_slice())?;
    let (equal, work) = found(&rt, rt.alloc(), (&graph, &window), (first, second), 6, 50)?;
    assert!(rt; matches!(equal, Finding::Equal) && work == 50 * (6 + 4 * 7));
    Ok(())
}

// A leaf is a free variable, also if its node is the And of another leaf: so over the leaves b and "a AND b" the two can differ.
#[test]
fn leaf_is_free(rt: HostRuntime) -> Result<(), Fail> {
    let (mut graph, _, _) = two_ways(rt.alloc())?;
    let (a, b) = (Literal::new(1, false), Literal::new(2, false));
    let both = and_of(&mut graph, a, b)?;
    let window = Window::new(rt.alloc(), [2, 4].as_slice(), [].as_slice())?;
    let (free, _) = found(&rt, rt.alloc(), (&graph, &window), (b, both), 100, 1)?;
    assert!(rt; matches!(free, Finding::Differ(_)));
    Ok(())
}
