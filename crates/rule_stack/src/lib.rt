// What is kept of a formula that is open, and the nodes of those that were read.
#![tactic(auto)]

ghost use Rattle.std.specs.Prelude.{◌≡◌, [], ◌∷◌, ◌+◌, ◌/◌, ◌%◌, ◌≤◌, ◌<◌, length};
ghost use Rattle.std.proofs.lemmas.List.Edits.{sets};
ghost use Rattle.rule_stack.specs.Open.{put, joined_node};

pub fn low_byte(x: usize) -> u8
    ensures { result ≡ x % 256 }
{
    (x % 256) as u8
}

// Writes node `count`, of which a and b are below 256, as far as there is room for 64.
pub fn put_node(
    count: usize,
    operation: u8,
    kind: u8,
    a: u8,
    b: u8,
    high: u8,
    low: u8,
    nodes: &mut [u8],
)
    requires { length nodes.old ≡ 512 }
    ensures { nodes.new ≡
        put count (operation ∷ kind ∷ 0 ∷ a ∷ 0 ∷ b ∷ high ∷ low ∷ []) nodes.old }
{
    if count < 64 {
        let at = 8 * count;
        nodes[at] = operation;
        nodes[at + 1] = kind;
        nodes[at + 2] = 0;
        nodes[at + 3] = a;
        nodes[at + 4] = 0;
        nodes[at + 5] = b;
        nodes[at + 6] = high;
        nodes[at + 7] = low;
    }
}

// What is kept of two operands behind the sign: c, the low byte of the first one's node, and the tag.
pub fn push_join(number: u32, left: u8, tag: u8, at: usize, stack: &mut [u8])
    requires { (number < 65536) × (at + 4 ≤ length stack.old) }
    ensures { stack.new ≡
        sets stack.old at (number / 256 ∷ number % 256 ∷ left ∷ tag ∷ []) }
{
    stack[at] = (number / 256) as u8;
    stack[at + 1] = (number % 256) as u8;
    stack[at + 2] = left;
    stack[at + 3] = tag;
}

// The node of two operands, which is node `count`, from what is kept of them from place `at` on.
pub fn put_join(count: usize, tag: u8, at: usize, stack: &[u8], nodes: &mut [u8])
    requires { (1 ≤ count) × (at + 4 ≤ length stack.now) × (length nodes.old ≡ 512) }
    ensures { nodes.new ≡ put count (joined_node tag at count stack.now) nodes.old }
{
    let left = stack[at + 2];
    let high = stack[at];
    let low = stack[at + 1];
    let right = low_byte(count - 1);
    let operation = tag / rule_tokens::JOINED;
    let kind = tag % rule_tokens::JOINED;
    put_node(count, operation, kind, left, right, high, low, nodes);
}
