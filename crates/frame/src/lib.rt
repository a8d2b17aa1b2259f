// Where samples stand: the check of a frame, the point of a sample, and what a search has found so far.

#![tactic(auto)]

ghost use Rattle.std.specs.Prelude.{◌≤◌, ◌<◌, true, ◌≡◌, length};
ghost use Rattle.std.proofs.Math.Option.{none};
ghost use Rattle.rules.specs.Boxes.{holds, everywhere};
ghost use Rattle.rules.specs.Frame.{most_samples, code_at, point_of, frame_refusal};
ghost use Rattle.laws.specs.Checking.{checked_by};
ghost use Rattle.frame.specs.Tallies.{columns_right, seen_count, stepped};

use rules::{Axis, Hit, Place, Point, Refusal, Rule};

// Every column from `first` on is in range.
fn columns_right(first: i32, samples: usize) -> bool
    requires { (1 ≤ samples) × (samples ≤ most_samples) }
    ensures { result ≡ columns_right first samples }
{
    let last = (first as i64) + ((samples - 1) as i64);
    ((rules::LEAST_COLUMN <= first) & (first <= rules::GREATEST_COLUMN))
        & (last <= (rules::GREATEST_COLUMN as i64))
}

pub fn check_frame(samples: &[i16], place: Place) -> Result<(), Refusal>
    ensures { result ≡ checked_by (frame_refusal samples.now place) }
{
    let n = samples.len();
    table::refuse_if((n == 0) | (rules::MOST_SAMPLES < n), Rule::Frame, 0)?;
    table::refuse_unless(columns_right(place.first, n), Rule::Frame, 1)?;
    table::refuse_unless(Axis::Frame.contains(place.frame), Rule::Frame, 2)
}

// The point of sample k.
pub fn point_at(samples: &[i16], place: Place, k: usize) -> Point
    requires k_in_bounds { k < length samples.now }
    requires place_value { frame_refusal samples.now place ≡ none }
    ensures value { result ≡ point_of place k (code_at samples.now k) }
    ensures ranged { holds everywhere result ≡ true }
{
    let y = samples[k] as i32;
    let x = place.first + (k as i32);
    Point {
        x,
        y,
        z: place.frame,
    }
}

// The first inside sample and how many there are, with sample k.
pub fn counted(found: Option<Hit>, k: usize, inside: bool) -> Option<Hit>
    requires { seen_count found ≤ most_samples }
    ensures { result ≡ stepped found k inside }
{
    if !inside {
        return found;
    }
    match found {
        Some(hit) => Some(Hit {
            count: hit.count + 1,
            ..hit
        }),
        None => Some(Hit { first: k, count: 1 }),
    }
}
