// One child: whether it has a cost, its cost, its rank.
ghost use Rattle.std.specs.Prelude.{◌≡◌, length};
ghost use Rattle.choice_rules.specs.Run.{priced, child_cost};
ghost use Rattle.choice_rules.specs.Edges.{child_rank};
ghost use Rattle.price_passes.specs.Flat.{child_of, ChildIn};

pub const CLASSES: u64 = 512;

// Whether a child has a cost: a literal has.
pub fn has_cost(ranks: &[u64], child: u64) -> bool
    requires { ChildIn (length ranks.now) child }
    ensures { result ≡ priced ranks.now (child_of child) }
{
    if child >= CLASSES {
        return true;
    }
    let c = child as usize;
    0 < ranks[c]
}

// src/extract.rs: compute_cost_node.
pub fn cost(costs: &[u64], child: u64) -> u64
    requires { ChildIn (length costs.now) child }
    ensures { result ≡ child_cost costs.now (child_of child) }
{
    if child >= CLASSES {
        return 1;
    }
    let c = child as usize;
    costs[c]
}

// src/extract.rs: compute_topo_rnk_node.
pub fn rank(ranks: &[u64], child: u64) -> u64
    requires { ChildIn (length ranks.now) child }
    ensures { result ≡ child_rank ranks.now (child_of child) }
{
    if child >= CLASSES {
        return 0;
    }
    let c = child as usize;
    ranks[c]
}
