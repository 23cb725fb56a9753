// Views as they are given: for each seat the latest time, or -1 for none.
ghost use Rattle.std.specs.Prelude.{◌≡◌, suc, ◌≤◌, length};
ghost use Rattle.farm.specs.Limits.{limits};
ghost use Rattle.knowledge.specs.Views.{latest, latest_times};
ghost use Rattle.viewing.specs.Counts.{held};
ghost use Rattle.telling.specs.Laid.{InTime, laid};

fn latest_time(count: u16) -> i16
    requires { count ≤ suc limits.most_rounds }
    ensures { result ≡ latest count }
{
    (count as i16) - 1
}

// The view that the counts hold, into the first entries of a buffer.
pub fn put_times(counts: &[u16], seats: u8, out: &mut [i16])
    requires { (seats ≤ length counts.now) × (seats ≤ length out.old) × InTime counts.now }
    ensures { out.new ≡ laid (latest_times seats (held counts.now)) out.old }
{
    for q in 0..seats as usize {
        out[q] = latest_time(counts[q]);
    }
}
