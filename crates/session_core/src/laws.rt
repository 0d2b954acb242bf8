ghost use Rattle.std.specs.Prelude.{◌≡◌, ℕ, List, Option, None, Some};
ghost use mathlib.Core.List.{IsPrefix};
ghost use Rattle.arc_graph.specs.History.{History, IsHistory};
ghost use Rattle.epoch_store.specs.Origin.{arcs_of, criteria_of};
ghost use Rattle.road_network.specs.Network.{Network, IsNetwork};
ghost use Rattle.road_network.specs.declared.query.AnswerKind.{AnswerKind};
ghost use Rattle.road_network.specs.declared.query.AnswerKind.TheVariants.{Walks};
ghost use Rattle.road_network.specs.declared.query.Query.{Query};
ghost use Rattle.session_requests.specs.declared.session.SessionRequest.TheVariants as asks;
ghost use Rattle.session_core.specs.Queries.{RepliesToQuery};
ghost use Rattle.session_core.specs.Sessions.{RepliesTo, Scene, SessionRun, network_at};
ghost use Rattle.session_core.specs.Exchanges.{Exchange};
ghost use Rattle.session_core.specs.declared.mode.SearchMode.TheVariants.{Plain, Goal};
ghost use Rattle.session_core.specs.declared.reply.Reply.TheVariants.{Answer, Refusal};

/// The lines of a session with their replies stay a run where less was seen before, and where more was published
/// afterwards: so what was replied over what a session had seen is true of all that its operator published in the end.
pub fn session_runs_stay()
    ensures { (scene : Scene) (g0 h0 h1 g1 : History) (exchanges : List Exchange)
        → SessionRun scene h0 h1 exchanges → IsPrefix g0 h0 → IsPrefix h1 g1
        → IsHistory (arcs_of scene.origin) (criteria_of scene.origin) g1
        → SessionRun scene g0 g1 exchanges }
{}

/// Where a plain search answers, a directed one gives the same text, with the same limit and budget, whatever they are. What a
/// directed search refuses, a plain one refuses by the same line. So who asks a session for `q` or `l` may ask for `g` or `h`:
/// where the former is answered, each reply to the latter is that answer.
pub fn goal_answers_wherever_plain_does()
    ensures answers { (net : Network) (epoch : ℕ) (kind : AnswerKind) (query : Query) (text : List ℕ)
        → IsNetwork net → RepliesToQuery net Plain epoch kind query Answer text
        → RepliesToQuery net Goal epoch kind query Answer text }
    ensures refuses { (net : Network) (epoch : ℕ) (kind : AnswerKind) (query : Query) (text : List ℕ)
        → IsNetwork net → RepliesToQuery net Goal epoch kind query Refusal text
        → RepliesToQuery net Plain epoch kind query Refusal text }
    ensures alike { (net : Network) (epoch : ℕ) (kind : AnswerKind) (query : Query)
        (text other : List ℕ) → RepliesToQuery net Plain epoch kind query Answer text
        → RepliesToQuery net Goal epoch kind query Answer other → text ≡ other }
    ensures in_sessions { (scene : Scene) (h : History) (k s t : ℕ) (text other : List ℕ)
        → IsNetwork (network_at scene h k) → RepliesToQuery (network_at scene h k) Plain k Walks
        (record { from = s; to = t; limit = None; budget = scene.budget }) Answer text
        → RepliesTo scene h k (asks.Goal s t) other → text ≡ other }
    ensures within_bounds { (scene : Scene) (h : History) (k s t : ℕ) (limit : List (Option ℕ))
        (text other : List ℕ) → IsNetwork (network_at scene h k)
        → RepliesToQuery (network_at scene h k) Plain k Walks
        (record { from = s; to = t; limit = Some limit; budget = scene.budget }) Answer text
        → RepliesTo scene h k (asks.GoalWithin s t limit) other → text ≡ other }
{}
