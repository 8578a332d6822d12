// Reads a rule's text, token by token. The formulas that are open are kept in a lent buffer, innermost last, and the nodes
// in another.
#![tactic(auto)]

ghost use Rattle.std.specs.Prelude.{◌≡◌, ◌≢◌, cond, ◌≤◌, ◌<◌, length, eqb};
ghost use Rattle.rule_grammar.specs.Machine.{judge};
ghost use Rattle.rule_parser.specs.declared.Phase.{Phase};
ghost use Rattle.rule_parser.specs.Standing.{spot, Within, Starting, Behind, Standing, Turned};
ghost use Rattle.rule_parser.specs.Read.{Reads};

// An operand starts, or was read; or the text was, and is that of a formula.
#[derive(Clone, Copy, PartialEq, Eq)]
pub enum Phase {
    Start,
    Read,
    Done,
}

// Where reading stands: the phase, the place, how many bytes the open formulas take, and how many nodes are written.
#[derive(Clone, Copy)]
pub struct Spot {
    pub phase: Phase,
    pub end: usize,
    pub depth: usize,
    pub count: usize,
}

fn stand(phase: Phase, end: usize, depth: usize, count: usize) -> Spot
    ensures { result ≡ spot phase end depth count }
{
    Spot {
        phase,
        end,
        depth,
        count,
    }
}

// An operand starts: it is read, or a formula around it is opened. An error is the place of the text's fault, here and in
// what follows.
fn start_turn(text: &[u8], s: Spot, stack: &mut [u8], nodes: &mut [u8]) -> Result<Spot, usize>
    requires { Starting text.now s stack.old nodes.old × Within text.now s stack.old }
    ensures { Turned text.now s result stack.new nodes.new }
{
    let token = rule_tokens::start(text, s.end)?;
    if token.tag < rule::NOT {
        let label = rule_stack::low_byte(token.number as usize);
        rule_stack::put_node(s.count, token.tag, 0, label, 0, 0, 0, nodes);
        return Ok(stand(Phase::Read, token.end, s.depth, s.count + 1));
    }
    let top = s.depth;
    stack[top] = token.tag;
    Ok(stand(Phase::Start, token.end, top + 1, s.count))
}

// Nothing is open: the text is read, or goes on.
fn finish(text: &[u8], end: usize, count: usize) -> Result<Spot, usize>
    ensures { result ≡ cond (eqb end (length text.now)) (Ok (spot Phase.Done end 0 count)) (Err end) }
{
    if end == text.len() {
        Ok(stand(Phase::Done, end, 0, count))
    } else {
        Err(end)
    }
}

// An operand was read: what is open around it goes on, or ends with it.
fn behind_turn(text: &[u8], s: Spot, stack: &mut [u8], nodes: &mut [u8]) -> Result<Spot, usize>
    requires { Behind text.now s stack.old nodes.old × Within text.now s stack.old }
    ensures { Turned text.now s result stack.new nodes.new }
{
    let depth = s.depth;
    if depth == 0 {
        return finish(text, s.end, s.count);
    }
    let top = depth - 1;
    let tag = stack[top];
    if tag == rule::NOT {
        let operand = rule_stack::low_byte(s.count - 1);
        rule_stack::put_node(s.count, rule::NOT, 0, operand, 0, 0, 0, nodes);
        return Ok(stand(Phase::Read, s.end, top, s.count + 1));
    }
    if tag < rule_tokens::JOINED {
        let token = rule_tokens::sign(text, s.end, tag)?;
        let left = rule_stack::low_byte(s.count - 1);
        rule_stack::push_join(token.number, left, token.tag, top, stack);
        return Ok(stand(Phase::Start, token.end, depth + 3, s.count));
    }
    let end = rule_numbers::behind(text, s.end, b')')?;
    let below = depth - 4;
    rule_stack::put_join(s.count, tag, below, stack, nodes);
    Ok(stand(Phase::Read, end, below, s.count + 1))
}

fn turn(text: &[u8], s: Spot, stack: &mut [u8], nodes: &mut [u8]) -> Result<Spot, usize>
    requires { Standing text.now s stack.old nodes.old × Within text.now s stack.old × (s.phase ≢ Phase.Done) }
    ensures { Turned text.now s result stack.new nodes.new }
{
    if s.phase == Phase::Start {
        return start_turn(text, s, stack, nodes);
    }
    behind_turn(text, s, stack, nodes)
}

// Reads a text of at most 4,096 bytes, with a byte of the stack for each, and answers how many nodes its formula has; an
// error is the place of the fault of a text that is not of the grammar. The nodes stand in `nodes` afterwards, as far as
// there is room for 64.
pub fn read_nodes(text: &[u8], stack: &mut [u8], nodes: &mut [u8]) -> Result<usize, usize>
    requires { (length text.now ≤ 4096) × (length text.now ≤ length stack.old) × (length nodes.old ≡ 512) }
    ensures { Reads text.now (judge text.now) result nodes.new }
{
    let mut s = stand(Phase::Start, 0, 0, 0);
    while s.phase != Phase::Done {
        s = turn(text, s, stack, nodes)?;
    }
    Ok(s.count)
}
