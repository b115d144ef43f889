// Entries on directions and points. A direction is judged before a range, whatever the order of the parameters.
#![tactic(auto, unfolding(index::specs::Refusals::judged))]

ghost use Rattle.std.specs.Prelude.{◌≡◌};
ghost use Rattle.index.specs.Told.{told};
ghost use Rattle.point_entries.specs.Points.{unit_of, direction_turn_of, normalise_of, neighbour_of, same_of, distance_of, to_ij_of, from_ij_of, down7_of, down3_of, point_turn_of, up7_of, direction_of_point};

use entry::judge::{head, locate, rotation};
use index::Refusal;
use plane::ijk;
use plane::ijk::{IJ, IJK};

pub fn unit(direction: u32) -> Result<IJK, Refusal>
    ensures { told result ≡ unit_of direction }
{
    let d = head(direction)?;
    Ok(d.coordinate())
}

// Inlined, since the two exports that share it would have its answer in memory.
#[inline(always)]
pub fn direction_turn(direction: u32, count: u32, ccw: bool) -> Result<u64, Refusal>
    ensures { told result ≡ direction_turn_of ccw direction count }
{
    let d = head(direction)?;
    let by = rotation(ccw, count)?;
    Ok(d.rotate60(by).value() as u64)
}

pub fn normalise(p: IJK) -> Result<IJK, Refusal>
    ensures { told result ≡ normalise_of p }
{
    let at = locate(p)?;
    Ok(ijk::normalize(at))
}

pub fn neighbour(p: IJK, direction: u32) -> Result<IJK, Refusal>
    ensures { told result ≡ neighbour_of p direction }
{
    let heading = head(direction)?;
    let place = locate(p)?;
    Ok(images::neighbor(place, heading))
}

pub fn same_point(p: IJK, q: IJK) -> Result<bool, Refusal>
    ensures { told result ≡ same_of p q }
{
    let at = locate(p)?;
    let to = locate(q)?;
    Ok(ijk::same_point(at, to))
}

pub fn distance(p: IJK, q: IJK) -> Result<u64, Refusal>
    ensures { told result ≡ distance_of p q }
{
    let at = locate(p)?;
    let to = locate(q)?;
    Ok(ijk::distance(at, to) as u64)
}

pub fn to_ij(p: IJK) -> Result<IJ, Refusal>
    ensures { told result ≡ to_ij_of p }
{
    let at = locate(p)?;
    Ok(ijk::to_ij(at))
}

pub fn from_ij(p: IJ) -> Result<IJK, Refusal>
    ensures { told result ≡ from_ij_of p }
{
    locate(IJK {
        i: p.i,
        j: p.j,
        k: 0,
    })?;
    Ok(ijk::of_ij(p.i, p.j))
}

// The four images: two lines each, and no plainer as one function that takes the image.
pub fn down7(p: IJK, ccw: bool) -> Result<IJK, Refusal>
    ensures { told result ≡ down7_of ccw p }
{
    let at = locate(p)?;
    Ok(images::down_aperture7(at, ccw))
}

pub fn down3(p: IJK, ccw: bool) -> Result<IJK, Refusal>
    ensures { told result ≡ down3_of ccw p }
{
    let at = locate(p)?;
    Ok(images::down_aperture3(at, ccw))
}

pub fn point_turn(p: IJK, ccw: bool) -> Result<IJK, Refusal>
    ensures { told result ≡ point_turn_of ccw p }
{
    let at = locate(p)?;
    Ok(images::rotate60(at, ccw))
}

pub fn up7(p: IJK, ccw: bool) -> Result<IJK, Refusal>
    ensures { told result ≡ up7_of ccw p }
{
    let at = locate(p)?;
    Ok(images::up_aperture7(at, ccw))
}

pub fn direction_of(p: IJK) -> Result<u64, Refusal>
    ensures { told result ≡ direction_of_point p }
{
    let at = locate(p)?;
    let d = ijk::direction_of(at).ok_or(Refusal::NotUnit)?;
    Ok(d.value() as u64)
}
