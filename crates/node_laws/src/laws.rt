//! What the rule of a table of nodes says of its seats and its steps. A law has an empty body: its contract is the law.

ghost use Rattle.node_laws.specs.States.{HeldNodesStand, HeldNodesDiffer, ReceivedBeginsFilled};
ghost use Rattle.node_laws.specs.Steps.{EachStepAddsItsEvent, NoJoinIsAnEvent, NoLookIsAnEvent, NoSplitIsAnEvent};

/// In every state under the rule: what a receiver has of a sender is the first part of what that filled for its
/// mailbox, also where either was gathered or taken in; the words of the node of a held item are that item's, and
/// nothing that its sender filled later stands there; and no two seats hold one node.
pub fn law_seats_under_the_rule()
    ensures received { ReceivedBeginsFilled }
    ensures held { HeldNodesStand }
    ensures apart { HeldNodesDiffer }
{}

/// Each atomic step at a table, from any state under the rule, is a step of the core that the words show, and leads to
/// a state under the rule: to the events that led there it adds the one event of its kind, in its mailbox, or none.
/// A look, a split of a seat and a join of two add none.
pub fn law_steps_add_their_event()
    ensures steps { EachStepAddsItsEvent }
    ensures looks { NoLookIsAnEvent }
    ensures splits { NoSplitIsAnEvent }
    ensures joins { NoJoinIsAnEvent }
{}
