// Rule 1 of document 01: what each seat has seen. A view is held as counts, for each seat one more
// than the latest time seen of it and 0 for none, so that joining two views takes the larger count.
// The views of all seats go forward together, round by round.
#![tactic(auto, using(crate::proofs::ViewSteps::view_steps), unfolding(crate::specs::Counts::view_in, crate::specs::Counts::arrivals, crate::specs::Counts::counts, crate::specs::Counts::first_counts, crate::specs::Counts::held, crate::specs::Counts::both, knowledge::specs::Views::up_to))]

ghost use Rattle.std.specs.Prelude.{◌≡◌, cond, max, ◌≤◌, ◌<◌, pos};
ghost use Rattle.farm.specs.Limits.{limits};
ghost use Rattle.knowledge.specs.Farm.{after};
ghost use Rattle.knowledge.specs.Views.{view_of, views_of};
ghost use Rattle.viewing.specs.Counts.{counts, first_counts, farm_in, count_of, held, both, heard_by, own_view, seat_view, joined_view, all_views, views_below, views_with};

use crate::farms::Farm;
use crate::losses::was_lost;
use crate::sets::with_seat;
use farm::limits::MOST_SEATS;
use farm::places::{Seat, Time};
use farm::sets::holds;

// Room for one view, and for the views of all seats.
pub const ROOM: usize = MOST_SEATS as usize;

pub const TABLE: usize = ROOM * ROOM;

// One view: a count for each seat, 0 for every seat from n on.
#[derive(Clone, Copy)]
pub struct Counts {
    pub of: [u16; ROOM],
}

// The views of all seats at one time: seat p's count of seat q stands at p * ROOM + q. The table is flat, so that
// a place in it is computed, and the contracts show that it is the right one.
#[derive(Clone, Copy)]
pub struct Views {
    pub of: [u16; TABLE],
}

// The larger of two counts, where the other one joins.
fn larger(count: u16, joins: bool, other: u16) -> u16
    ensures { result ≡ max count (cond joins other 0) }
{
    count.max(if joins { other } else { 0 })
}

// Joins one seat's row of the table to a view. Rows are joined whole, in place and at a fixed length: the only branch
// is then whether a row joins, and the time does not hang on the counts.
fn join_row(view: &mut [u16; ROOM], views: &[u16; TABLE], p: Seat)
    requires { p.0 < limits.most_seats }
    ensures { view.new ≡ counts limits.most_seats (both (held view.old) (seat_view views.now p)) }
{
    for q in 0..ROOM {
        view[q] = view[q].max(views[(p.0 as usize) * ROOM + q]);
    }
}

// The joined rows of a set of seats.
fn joined_rows(views: &[u16; TABLE], seats: u8, set: u16) -> Counts
    requires { seats ≤ limits.most_seats }
    ensures { result.of ≡ counts limits.most_seats (joined_view seats set views.now) }
{
    let mut view: [u16; ROOM] = [0; ROOM];
    for p in 0..seats {
        if holds(set, Seat(p)) {
            join_row(&mut view, views, Seat(p));
        }
    }
    Counts { of: view }
}

// The seats whose send to this one was not lost in the round that begins at the time.
fn heard(farm: Farm, begun: Time, by: Seat) -> u16
    requires { farm.sizes.seats ≤ limits.most_seats }
    ensures { result ≡ heard_by (farm_in farm.entry) (after begun) by }
{
    let mut set: u16 = 0;
    for s in 0..farm.sizes.seats {
        set = with_seat(set, Seat(s), !was_lost(farm, begun, Seat(s), by));
    }
    set
}

// The count of q in the view that has only p's place at the time and those before it.
fn own_count(time: Time, p: Seat, q: Seat) -> u16
    requires { time.0 ≤ limits.most_rounds }
    ensures { result ≡ count_of (own_view p time) q }
{
    if q.0 == p.0 { time.0 + 1 } else { 0 }
}

// What p has seen of q when the round that begins at the time is over: p's own place, what p had
// seen before, and what those had seen whom p heard, which is given.
fn next_count(before: &[u16; TABLE], joined: u16, begun: Time, p: Seat, q: Seat) -> u16
    requires { (begun.0 < limits.most_rounds) × (p.0 < limits.most_seats) × (q.0 < limits.most_seats) }
    ensures { result ≡ max (max (count_of (own_view p (after begun)) q) (count_of (seat_view before.now p) q)) joined }
{
    let own = own_count(Time(begun.0 + 1), p, q);
    let at = (p.0 as usize) * ROOM + (q.0 as usize);
    let kept = larger(own, true, before[at]);
    larger(kept, true, joined)
}

// Writes p's view after the round that begins at the time into the table of the next views, which
// has those of the seats below p.
fn fill_view(next: &mut [u16; TABLE], farm: Farm, before: &[u16; TABLE], begun: Time, p: Seat)
    requires seats_le_most_seats { (farm.sizes.seats ≤ limits.most_seats) × (begun.0 < limits.most_rounds) × (p.0 < farm.sizes.seats) }
    requires before_value { before.now ≡ all_views (farm_in farm) begun }
    requires next_value { next.old ≡ views_below (farm_in farm) (after begun) p }
    ensures { next.new ≡ views_with (farm_in farm.entry) (after begun) p }
{
    let from = heard(farm, begun, p);
    let joined = joined_rows(before, farm.sizes.seats, from);
    for q in 0..farm.sizes.seats {
        let at = (p.0 as usize) * ROOM + (q as usize);
        next[at] = next_count(before, joined.of[q as usize], begun, p, Seat(q));
    }
}

// The views of all seats when the round that begins at the time is over.
fn next_views(farm: Farm, before: Views, begun: Time) -> Views
    requires seats_le_most_seats { (farm.sizes.seats ≤ limits.most_seats) × (begun.0 < limits.most_rounds) }
    requires of_value { before.of ≡ all_views (farm_in farm) begun }
    ensures { result.of ≡ all_views (farm_in farm.entry) (after begun) }
{
    let mut next: [u16; TABLE] = [0; TABLE];
    for p in 0..farm.sizes.seats {
        fill_view(&mut next, farm, &before.of, begun, Seat(p));
    }
    Views { of: next }
}

// The views of all seats at time 0: each has its own place alone.
fn first_views(seats: u8) -> Views
    requires { seats ≤ limits.most_seats }
    ensures { result.of ≡ first_counts seats }
{
    let mut first: [u16; TABLE] = [0; TABLE];
    for p in 0..seats {
        let at = (p as usize) * ROOM + (p as usize);
        first[at] = 1;
    }
    Views { of: first }
}

// The views of all seats at a time.
pub fn views_at(farm: Farm, time: Time) -> Views
    requires { (farm.sizes.seats ≤ limits.most_seats) × (time.0 ≤ limits.most_rounds) }
    ensures { result.of ≡ all_views (farm_in farm.entry) time }
{
    let mut views = first_views(farm.sizes.seats);
    for k in 0..time.0 {
        views = next_views(farm, views, Time(k));
    }
    views
}

// One seat's part of the table of all views.
pub fn seat_view(views: &[u16; TABLE], seats: u8, seat: Seat) -> Counts
    requires { (seats ≤ limits.most_seats) × (seat.0 < limits.most_seats) }
    ensures { result.of ≡ counts seats (seat_view views.now seat) }
{
    let mut view: [u16; ROOM] = [0; ROOM];
    for q in 0..seats {
        let at = (seat.0 as usize) * ROOM + (q as usize);
        view[q as usize] = views[at];
    }
    Counts { of: view }
}

// The views of a set of seats, joined.
fn joined_view(views: &[u16; TABLE], seats: u8, set: u16) -> Counts
    requires { seats ≤ limits.most_seats }
    ensures { result.of ≡ counts seats (joined_view seats set views.now) }
{
    let rows = joined_rows(views, seats, set);
    let mut view: [u16; ROOM] = [0; ROOM];
    for q in 0..seats {
        view[q as usize] = rows.of[q as usize];
    }
    Counts { of: view }
}

// The view of a place.
pub fn view_of(farm: Farm, seat: Seat, time: Time) -> Counts
    requires { (farm.sizes.seats ≤ limits.most_seats) × (seat.0 < farm.sizes.seats) × (time.0 ≤ limits.most_rounds) }
    ensures { result.of ≡ counts farm.entry.sizes.seats (view_of (farm_in farm.entry) seat time) }
{
    let views = views_at(farm, time);
    seat_view(&views.of, farm.sizes.seats, seat)
}

// The view of a set of seats at a time.
pub fn view_of_set(farm: Farm, set: u16, time: Time) -> Counts
    requires { (farm.sizes.seats ≤ limits.most_seats) × (time.0 ≤ limits.most_rounds) }
    ensures { result.of ≡ counts farm.entry.sizes.seats (views_of (farm_in farm.entry) set (pos time.0)) }
{
    let views = views_at(farm, time);
    joined_view(&views.of, farm.sizes.seats, set)
}
