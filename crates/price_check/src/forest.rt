// Sets of places as trees (Tarjan 1975; the halving of paths after van Leeuwen and van der Weide).
ghost use Rattle.std.specs.Prelude.{◌≡◌, ◌<◌, ◌≤◌, ℕ, length};
ghost use Rattle.price_check.specs.Forest.{PointsUp, merged, top};

/// The top of a place; places on the way point further up afterwards.
fn top_of(up: &mut [usize], from: usize) -> usize
    requires earlier { PointsUp up.old }
    requires place { from < length up.old }
    ensures earlier { PointsUp up.new }
    ensures value { result ≡ top up.old from }
    ensures low { result ≤ from }
    ensures kept { (x : ℕ) → top up.new x ≡ top up.old x }
{
    let mut x = from;
    while up[x] != x {
        let higher = up[up[x]];
        up[x] = higher;
        x = higher;
    }
    x
}

/// Puts the later of two tops below the earlier one.
pub fn unite(up: &mut [usize], x: usize, y: usize)
    requires earlier { PointsUp up.old }
    requires x { x < length up.old }
    requires y { y < length up.old }
    ensures earlier { PointsUp up.new }
    ensures tops { (z : ℕ) → top up.new z ≡ merged (top up.old x) (top up.old y) (top up.old z) }
{
    let s = top_of(up, x);
    let t = top_of(up, y);
    if s < t {
        up[t] = s;
    } else {
        up[s] = t;
    }
}
