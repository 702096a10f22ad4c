//! The options of a plan: how many threads and nodes a run has.

ghost use Rattle.std.specs.Prelude.{◌≡◌, ℕ, List, Some, codes};
ghost use Rattle.clap.specs.Words.{App, found_of, matches_of, rows_of, rule_of};
ghost use Rattle.clap.specs.declared.builder.value_parser.ValueParser.TheVariants as vp;
ghost use Rattle.split_run.specs.Plans.{MOST_NODES};
ghost use Rattle.split_run.specs.declared.TheConstants.{MOST_THREADS};
ghost use Rattle.royalty_program.specs.Args.{IsOptionalArg, IsRequiredArg, number_rule, optional_number_rule};
ghost use Rattle.royalty_program.specs.Asked.{plan_given, plan_or_usual};
ghost use Rattle.royalty_program.specs.PlanWords.{FindsPlan, MayFindPlan};

use crate::options::number_arg;
use clap::{Arg, ArgMatches, value_parser};
use split_run::Plan;
use std::alloc::Global;

/// The option of the workers.
pub(crate) fn workers_arg<'a>(alloc: Global) -> Arg<'a>
    ensures needed { IsRequiredArg (codes "workers") result }
    ensures few { result.value_parser ≡ Some (vp.Unsigned 1 MOST_THREADS) }
    ensures rule { rule_of result ≡ number_rule (codes "workers") MOST_THREADS }
{
    let range = value_parser!(u64).range(1..=8);
    number_arg(
        alloc,
        "workers",
        range,
        "How many threads divide usage lines: 1 to 8",
    )
}

/// The option of the readers.
pub(crate) fn readers_arg<'a>(alloc: Global) -> Arg<'a>
    ensures needed { IsRequiredArg (codes "readers") result }
    ensures few { result.value_parser ≡ Some (vp.Unsigned 1 MOST_THREADS) }
    ensures rule { rule_of result ≡ number_rule (codes "readers") MOST_THREADS }
{
    let range = value_parser!(u64).range(1..=8);
    number_arg(
        alloc,
        "readers",
        range,
        "How many threads keep statements: 1 to 8",
    )
}

/// The option of the nodes.
pub(crate) fn nodes_arg<'a>(alloc: Global) -> Arg<'a>
    ensures needed { IsRequiredArg (codes "nodes") result }
    ensures few { result.value_parser ≡ Some (vp.Unsigned 1 MOST_NODES) }
    ensures rule { rule_of result ≡ number_rule (codes "nodes") MOST_NODES }
{
    let range = value_parser!(u64).range(1..=64);
    number_arg(
        alloc,
        "nodes",
        range,
        "How many postings a worker has under way at most: 1 to 64",
    )
}

/// The option of the workers, which need not be there.
pub(crate) fn optional_workers_arg<'a>(alloc: Global) -> Arg<'a>
    ensures optional { IsOptionalArg (codes "workers") result }
    ensures few { result.value_parser ≡ Some (vp.Unsigned 1 MOST_THREADS) }
    ensures rule { rule_of result ≡ optional_number_rule (codes "workers") MOST_THREADS }
{
    workers_arg(alloc)
        .required(false)
        .help("How many threads divide usage lines: 1 to 8 [default: 4]")
}

/// The option of the readers, which need not be there.
pub(crate) fn optional_readers_arg<'a>(alloc: Global) -> Arg<'a>
    ensures optional { IsOptionalArg (codes "readers") result }
    ensures few { result.value_parser ≡ Some (vp.Unsigned 1 MOST_THREADS) }
    ensures rule { rule_of result ≡ optional_number_rule (codes "readers") MOST_THREADS }
{
    readers_arg(alloc)
        .required(false)
        .help("How many threads keep statements: 1 to 8 [default: 2]")
}

/// The option of the nodes, which need not be there.
pub(crate) fn optional_nodes_arg<'a>(alloc: Global) -> Arg<'a>
    ensures optional { IsOptionalArg (codes "nodes") result }
    ensures few { result.value_parser ≡ Some (vp.Unsigned 1 MOST_NODES) }
    ensures rule { rule_of result ≡ optional_number_rule (codes "nodes") MOST_NODES }
{
    nodes_arg(alloc).required(false).help(
        "How many postings a worker has under way at most: 1 to 64 [default: 64]",
    )
}

/// The plan that a parse found.
pub(crate) fn read_plan(matches: &ArgMatches<'_>) -> Plan
    requires { FindsPlan matches.now }
    ensures { (app : App) (words : List (List ℕ)) → rows_of (found_of matches.now) ≡ matches_of app words
        → result ≡ plan_given app words }
{
    let workers = matches.get_one::<u64>("workers").unwrap();
    let readers = matches.get_one::<u64>("readers").unwrap();
    let nodes = matches.get_one::<u64>("nodes").unwrap();
    Plan::new(workers, readers, nodes).unwrap()
}

/// The plan that a parse found: 4 workers, 2 readers and 64 nodes where it found no others.
pub(crate) fn read_plan_or_usual(matches: &ArgMatches<'_>) -> Plan
    requires { MayFindPlan matches.now }
    ensures { (app : App) (words : List (List ℕ)) → rows_of (found_of matches.now) ≡ matches_of app words
        → result ≡ plan_or_usual app words }
{
    let workers = matches.get_one::<u64>("workers").unwrap_or(4);
    let readers = matches.get_one::<u64>("readers").unwrap_or(2);
    let nodes = matches.get_one::<u64>("nodes").unwrap_or(64);
    Plan::new(workers, readers, nodes).unwrap()
}
