// Link words: a port's partner plus 1, or 0.
ghost use Rattle.std.specs.Prelude.{◌≡◌, ◌+◌, ◌≤◌, ◌<◌, length};
ghost use Rattle.slabs.specs.Links.{link_at, Inside, cut_at, wired_at, cut_run, wires_in};

// Reads the link word of a port: its partner, or none.
#[tactic(auto, unfolding(crate::specs::Links::link_at))]
pub fn link_at(links: &[u32], port: usize) -> Option<u32>
    requires { port < length links.now }
    ensures { result ≡ link_at links.now port }
{
    links[port].checked_sub(1)
}

// Cuts the wire at a port, at both its ends, and says how many wires that were: 1 or 0, for `cut_run` adds them up. That no word leads outside (`Inside`) is a
// clause, for the links are lent as one of the tables, and a type of such tables would be made anew for each cut.
#[tactic(auto, unfolding(crate::specs::Links::link_at, crate::specs::Links::cut_at, crate::specs::Links::wired_at))]
pub fn cut(links: &mut [u32], port: usize) -> u32
    requires { (port < length links.old) × Inside links.old }
    ensures { (links.new ≡ cut_at links.old port) × (result ≡ wired_at links.old port) }
{
    let Some(partner) = link_at(links, port) else {
        return 0;
    };
    links[port] = 0;
    links[partner as usize] = 0;
    1
}

// Cuts the wires at n ports from `first` on, and says how many that were.
#[tactic(auto, using(crate::proofs::Shapes::cut_laws), unfolding(crate::specs::Links::cut_run, crate::specs::Links::wires_in))]
pub fn cut_run(links: &mut [u32], first: usize, n: usize) -> u32
    requires { (first + n ≤ length links.old) × (length links.old ≤ 1048576) × Inside links.old }
    ensures { (links.new ≡ cut_run links.old first n) × (result ≡ wires_in links.old first n) }
{
    let mut wires: u32 = 0;
    for i in 0..n {
        wires += cut(links, first + i);
    }
    wires
}
