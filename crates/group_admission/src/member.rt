//! Members that are compared.

ghost use Rattle.std.specs.Prelude.{◌≡◌};
ghost use Rattle.group_admission.specs.Content as spec;

use flow_model::Member;

/// Whether two members are one.
pub fn same_member(a: Member, b: Member) -> bool
    ensures { result ≡ spec.same_member a b }
{
    match (a, b) {
        (Member::Run(a), Member::Run(b)) => a == b,
        (Member::Run(_), Member::Leg(_)) => false,
        (Member::Leg(_), Member::Run(_)) => false,
        (Member::Leg(a), Member::Leg(b)) => a == b,
    }
}

/// Whether a member is the one that may be there.
pub fn is_member(member: Member, other: Option<Member>) -> bool
    ensures { result ≡ spec.is_member member other }
{
    match other {
        Some(other) => same_member(member, other),
        None => false,
    }
}

/// Whether a holder is the run that an entering leg is of.
pub(crate) fn is_own(own_run: Option<u64>, holder: Member) -> bool
    ensures { result ≡ spec.is_own own_run holder }
{
    match own_run {
        Some(run) => same_member(Member::Run(run), holder),
        None => false,
    }
}
