//! The counts of a page, each with the link to the objects that it counts.

ghost use Rattle.std.specs.Prelude.{◌≡◌, ◌++◌, map, OnOk, codes};
ghost use Rattle.std.specs.List.{flat_map};
ghost use Rattle.status_view.specs.Shapes.{shape_view};
ghost use Rattle.status_view.specs.SummaryLayout.{same_choice, tile_view, tile_nodes, group_nodes, state_tile, all_tiles, host_tiles, service_tiles, summary_nodes};

use crate::layout::{Layout, Node, Slot};
use crate::shape::PageShape;
use status_merge::{Choice, choice_name};
use status_reading::State;
use std::alloc::AllocError;

/// Whether two choices are one.
#[tactic(auto, unfolding(crate::specs::SummaryLayout::same_choice))]
pub fn same_choice(one: Choice, other: Choice) -> bool
    ensures { result ≡ same_choice one other }
{
    one == other
}

/// How many objects a choice takes, with the link that shows them.
#[derive(Clone, Copy)]
pub struct Tile {
    pub choice: Choice,
    pub name: &'static str,
    pub count: usize,
}

fn lay_out_tile(layout: &mut Layout, shape: &PageShape, tile: &Tile) -> Result<(), AllocError>
    ensures { OnOk result (layout.new
        ≡ layout.old ++ tile_nodes (shape_view shape.now) (tile_view tile.now)) }
{
    layout.put(&[
        Node::Markup("<a class=\"tile "),
        Node::Markup(choice_name(tile.choice)),
    ])?;
    layout.put_if(tile.count == 0, &[Node::Markup(" zero")])?;
    layout.put_if(
        same_choice(shape.choice, tile.choice),
        &[Node::Markup("\" aria-current=\"true")],
    )?;
    layout.put(&[
        Node::Markup("\" href=\"/?"),
        Node::Slot(Slot::Chosen(tile.choice)),
        Node::Markup("\"><b>"),
        Node::Number(tile.count as u64),
        Node::Markup("</b> "),
        Node::Markup(tile.name),
        Node::Markup("</a>"),
    ])
}

fn lay_out_tiles(layout: &mut Layout, shape: &PageShape, tiles: &[Tile]) -> Result<(), AllocError>
    ensures { OnOk result (layout.new ≡ layout.old
        ++ flat_map (tile_nodes (shape_view shape.now)) (map tile_view tiles.now)) }
{
    for tile in tiles {
        lay_out_tile(layout, shape, tile)?;
    }
    Ok(())
}

fn lay_out_group(
    layout: &mut Layout,
    shape: &PageShape,
    title: &'static str,
    tiles: &[Tile],
) -> Result<(), AllocError>
    ensures { OnOk result (layout.new ≡ layout.old
        ++ group_nodes (shape_view shape.now) title.now (map tile_view tiles.now)) }
{
    layout.put(&[
        Node::Markup("<div class=\"group\"><span class=\"of\">"),
        Node::Markup(title),
        Node::Markup("</span>"),
    ])?;
    lay_out_tiles(layout, shape, tiles)?;
    layout.put(&[Node::Markup("</div>")])
}

fn state_tile(state: State, name: &'static str, count: usize) -> Tile
    ensures { tile_view result ≡ state_tile state name.now count }
{
    Tile {
        choice: Choice::In(state),
        name,
        count,
    }
}

#[tactic(auto, unfolding(crate::specs::SummaryLayout::all_tiles))]
fn lay_out_all(layout: &mut Layout, shape: &PageShape) -> Result<(), AllocError>
    ensures { let shape = shape_view shape.now in OnOk result (layout.new
        ≡ layout.old ++ group_nodes shape (codes "All") (all_tiles shape)) }
{
    let tiles = [
        Tile {
            choice: Choice::Unhandled,
            name: "unhandled",
            count: shape.counts.unhandled,
        },
        Tile {
            choice: Choice::Stale,
            name: "stale",
            count: shape.counts.stale,
        },
        Tile {
            choice: Choice::In(State::Pending),
            name: "pending",
            count: shape.pending,
        },
        Tile {
            choice: Choice::All,
            name: "objects",
            count: shape.counts.objects,
        },
    ];
    lay_out_group(layout, shape, "All", &tiles)
}

#[tactic(auto, unfolding(crate::specs::SummaryLayout::host_tiles))]
fn lay_out_hosts(layout: &mut Layout, shape: &PageShape) -> Result<(), AllocError>
    ensures { let shape = shape_view shape.now in OnOk result (layout.new
        ≡ layout.old ++ group_nodes shape (codes "Hosts") (host_tiles shape)) }
{
    let counts = &shape.counts;
    let tiles = [
        state_tile(State::Down, "down", counts.down),
        state_tile(State::Unreachable, "unreachable", counts.unreachable),
        state_tile(State::Up, "up", counts.up),
    ];
    lay_out_group(layout, shape, "Hosts", &tiles)
}

#[tactic(auto, unfolding(crate::specs::SummaryLayout::service_tiles))]
fn lay_out_services(layout: &mut Layout, shape: &PageShape) -> Result<(), AllocError>
    ensures { let shape = shape_view shape.now in OnOk result (layout.new
        ≡ layout.old ++ group_nodes shape (codes "Services") (service_tiles shape)) }
{
    let counts = &shape.counts;
    let tiles = [
        state_tile(State::Critical, "critical", counts.critical),
        state_tile(State::Warning, "warning", counts.warning),
        state_tile(State::Unknown, "unknown", counts.unknown),
        state_tile(State::Ok, "ok", counts.ok),
    ];
    lay_out_group(layout, shape, "Services", &tiles)
}

/// Appends the counts.
pub fn lay_out_summary(layout: &mut Layout, shape: &PageShape) -> Result<(), AllocError>
    ensures { OnOk result (layout.new ≡ layout.old ++ summary_nodes (shape_view shape.now)) }
{
    layout.put(&[Node::Markup("<nav class=\"counts\" aria-label=\"Counts\">")])?;
    lay_out_all(layout, shape)?;
    lay_out_hosts(layout, shape)?;
    lay_out_services(layout, shape)?;
    layout.put(&[Node::Markup("</nav>\n")])
}
