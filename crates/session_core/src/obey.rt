//! What an operator's lines do to its store.
ghost use Rattle.std.specs.Prelude.{◌≡◌, IfOk, OnErr, length};
ghost use Rattle.epoch_store.specs.Origin.{criteria_of};
ghost use Rattle.session_requests.specs.Requests.{WeighsEach};
ghost use Rattle.session_requests.specs.declared.operator.OperatorRequest.TheVariants as asks;
ghost use Rattle.session_core.specs.OperatorReplies.{Applies, ObeysBy, WeighsAs};

use crate::operator_reply::{Applied, OperatorReply, Refusal};
use cost_vector::Weight;
use epoch_store::{Operator, PublishFault, SetFault, ShutFault, Store};
use out_of_memory::OutOfMemory;
use session_requests::{Line, OperatorRequest};
use std::sync::Wait;

/// Does what a line says, before its reply is sent. Nothing changes where memory runs out.
pub(crate) fn apply<T: Store, R: Wait>(
    rt: &R,
    operator: &mut Operator<T>,
    line: Line<OperatorRequest>,
) -> Result<Applied, OutOfMemory>
    requires { WeighsAs (criteria_of T.origin) line }
    ensures applies { IfOk result (λ h. Applies T.origin line operator.old h operator.new) }
    ensures unchanged { OnErr result (operator.new ≡ operator.old) }
{
    match line {
        Line::Blank => Ok(Applied::Silent),
        Line::Request(request) => obey(rt, operator, request),
        Line::Other => Ok(Applied::Says(OperatorReply::Refused(Refusal::Line))),
    }
}

/// Does what is asked, before its reply is sent.
fn obey<T: Store, R: Wait>(
    rt: &R,
    operator: &mut Operator<T>,
    request: OperatorRequest,
) -> Result<Applied, OutOfMemory>
    requires { WeighsEach (criteria_of T.origin) request }
    ensures applies { IfOk result (λ h. Applies T.origin (Line.Request request)
        operator.old h operator.new) }
    ensures unchanged { OnErr result (operator.new ≡ operator.old) }
{
    let reply = match request {
        OperatorRequest::Set { arc, weight } => set(operator, arc, weight)?,
        OperatorRequest::Shut { arc } => shut(operator, arc)?,
        OperatorRequest::Drop => give_up(operator),
        OperatorRequest::Publish => publish(rt, operator)?,
        OperatorRequest::Bye => return Ok(Applied::Ends),
    };
    Ok(Applied::Says(reply))
}

/// Gives an arc weights with the next epoch.
fn set<T: Store>(
    operator: &mut Operator<T>,
    arc: u32,
    weight: Weight,
) -> Result<OperatorReply, OutOfMemory>
    requires { length weight ≡ criteria_of T.origin }
    ensures obeys { IfOk result (λ reply. ObeysBy T.origin (asks.Set arc weight)
        operator.old reply operator.new) }
    ensures unchanged { OnErr result (operator.new ≡ operator.old) }
{
    match operator.set(arc, weight) {
        Ok(()) => Ok(OperatorReply::Done),
        Err(SetFault::Arc) => Ok(OperatorReply::Refused(Refusal::Arc)),
        Err(SetFault::Zero) => Ok(OperatorReply::Refused(Refusal::Zero)),
        Err(SetFault::Full) => Ok(OperatorReply::Refused(Refusal::Full)),
        Err(SetFault::OutOfMemory(want)) => Err(want),
    }
}

/// Shuts an arc with the next epoch.
fn shut<T: Store>(operator: &mut Operator<T>, arc: u32) -> Result<OperatorReply, OutOfMemory>
    ensures obeys { IfOk result (λ reply. ObeysBy T.origin (asks.Shut arc)
        operator.old reply operator.new) }
    ensures unchanged { OnErr result (operator.new ≡ operator.old) }
{
    match operator.shut(arc) {
        Ok(()) => Ok(OperatorReply::Done),
        Err(ShutFault::Arc) => Ok(OperatorReply::Refused(Refusal::Arc)),
        Err(ShutFault::Full) => Ok(OperatorReply::Refused(Refusal::Full)),
        Err(ShutFault::OutOfMemory(want)) => Err(want),
    }
}

/// Gives up what is pending.
fn give_up<T: Store>(operator: &mut Operator<T>) -> OperatorReply
    ensures { ObeysBy T.origin asks.Drop operator.old result operator.new }
{
    operator.drop_pending();
    OperatorReply::Done
}

/// Publishes what is pending.
fn publish<T: Store, R: Wait>(
    rt: &R,
    operator: &mut Operator<T>,
) -> Result<OperatorReply, OutOfMemory>
    ensures obeys { IfOk result (λ reply. ObeysBy T.origin asks.Publish
        operator.old reply operator.new) }
    ensures unchanged { OnErr result (operator.new ≡ operator.old) }
{
    match operator.publish(rt) {
        Ok(number) => Ok(OperatorReply::Epoch(number)),
        Err(PublishFault::LastEpoch) => Ok(OperatorReply::Refused(Refusal::Last)),
        Err(PublishFault::OutOfMemory(want)) => Err(want),
    }
}
