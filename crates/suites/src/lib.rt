// The choice of attestation suites, made once when a connection opens.
#![tactic(auto)]

ghost use Rattle.std.specs.Prelude.{◌≡◌};
ghost use Rattle.std.specs.List.{slice_get};
ghost use Rattle.suites.specs.Choice.{choice_of, first_found, lists_too_long};
ghost use Rattle.suites.specs.Numbers.{found_of, answer_of};

const MAX_ENTRIES: usize = 16;

// Refusal 6: a list has more than 16 entries.
#[derive(Clone, Copy, Debug, PartialEq, Eq)]
pub struct TooLong;

// The suite that our verifier and the peer's prover run, and the one that the peer's verifier and our prover run. Of each
// it is the first that their two lists have in common, if any.
#[derive(Clone, Copy, Debug, PartialEq, Eq)]
pub struct Chosen {
    pub verifier: Option<u32>,
    pub prover: Option<u32>,
}

// The suites that either end offers, by the order in which it prefers them.
#[derive(Clone, Copy, Debug, PartialEq, Eq)]
pub struct Lists<'a> {
    pub our_verifiers: &'a [u32],
    pub peer_provers: &'a [u32],
    pub peer_verifiers: &'a [u32],
    pub our_provers: &'a [u32],
}

impl Lists<'_> {
    // Chooses both suites. In each pair the verifier's order decides.
    #[tactic(auto, unfolding(crate::specs::Choice::choice))]
    pub fn choose(self) -> Result<Chosen, TooLong>
        ensures { answer_of result ≡ choice_of self.entry }
    {
        if self.any_too_long() {
            return Err(TooLong);
        }
        let verifier = first_common(self.our_verifiers, self.peer_provers);
        let prover = first_common(self.peer_verifiers, self.our_provers);
        Ok(Chosen {
            verifier: self.our_verifiers.get(verifier).copied(),
            prover: self.peer_verifiers.get(prover).copied(),
        })
    }

    // Whether a list has more than 16 entries, which is the fault of refusal 6.
    pub fn any_too_long(self) -> bool
        ensures { result ≡ lists_too_long self.entry }
    {
        (self.our_verifiers.len() > MAX_ENTRIES)
            | (self.peer_provers.len() > MAX_ENTRIES)
            | (self.peer_verifiers.len() > MAX_ENTRIES)
            | (self.our_provers.len() > MAX_ENTRIES)
    }
}

// The place of the first entry of `verifiers` found anywhere in `provers`, or the number of verifiers if none is found.
// A suite is compared with the provers in groups of eight, of which the compiler makes vector instructions where it can,
// and with those behind the last group one by one. An Option of the suite as its answer was tried, and lists of sixteen
// entries took an eighth more instructions.
fn first_common(verifiers: &[u32], provers: &[u32]) -> usize
    ensures { found_of (slice_get verifiers.now result) ≡ first_found verifiers.now provers.now }
{
    let (groups, rest) = provers.as_chunks::<8>();
    let mut place = verifiers.len();
    'search: for (i, suite) in verifiers.iter().enumerate() {
        for group in groups {
            if group.contains(suite) {
                place = i;
                break 'search;
            }
        }
        for prover in rest {
            if suite == prover {
                place = i;
                break 'search;
            }
        }
    }
    place
}
