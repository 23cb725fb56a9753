// Answers as a host gets them: the number of the refusal, 0 where there is none, and beside it what was found. The meaning of
// each stands in specs/Results.antt.
ghost use Rattle.std.specs.Prelude.{◌≡◌};
ghost use Rattle.host.specs.Results.{refusal_number, header_told, length_told, seen_told, agreed_told, standing_told};

use farm::refusals::{Refusal, number};
use questions::answers::{Agreed, Seen, Standing};
use record::header::Header;

#[repr(C)]
#[derive(Clone, Copy)]
pub struct HeaderTold {
    pub refusal: u8,
    pub seats: u8,
    pub bound: u8,
    pub rounds: u16,
    pub edits: u16,
}

#[repr(C)]
#[derive(Clone, Copy)]
pub struct LengthTold {
    pub refusal: u8,
    pub length: usize,
}

#[repr(C)]
#[derive(Clone, Copy)]
pub struct SeenTold {
    pub refusal: u8,
    pub known: u16,
    pub view: [i16; 7],
}

#[repr(C)]
#[derive(Clone, Copy)]
pub struct AgreedTold {
    pub refusal: u8,
    pub steps: u8,
    pub critical: i16,
    pub kept: u16,
    pub count: u16,
    pub core: [i16; 7],
}

#[repr(C)]
#[derive(Clone, Copy)]
pub struct StandingTold {
    pub refusal: u8,
    pub loser: u8,
}

// An answer that is nothing but the refusal: what is found stands in the table or in a lent buffer.
pub fn refusal_number(answer: Result<(), Refusal>) -> u8
    ensures { result ≡ refusal_number answer }
{
    match answer {
        Ok(()) => 0,
        Err(refusal) => number(refusal),
    }
}

impl From<Result<Header, Refusal>> for HeaderTold {
    ghost from_gives = { λ answer told. told ≡ header_told answer };

    fn from(answer: Result<Header, Refusal>) -> HeaderTold {
        match answer {
            Ok(header) => HeaderTold {
                refusal: 0,
                seats: header.seats,
                bound: header.bound,
                rounds: header.rounds,
                edits: header.edits,
            },
            Err(refusal) => HeaderTold {
                refusal: number(refusal),
                seats: 0,
                bound: 0,
                rounds: 0,
                edits: 0,
            },
        }
    }
}

impl From<Result<usize, Refusal>> for LengthTold {
    ghost from_gives = { λ answer told. told ≡ length_told answer };

    fn from(answer: Result<usize, Refusal>) -> LengthTold {
        match answer {
            Ok(length) => LengthTold { refusal: 0, length },
            Err(refusal) => LengthTold {
                refusal: number(refusal),
                length: 0,
            },
        }
    }
}

impl From<Result<Seen, Refusal>> for SeenTold {
    ghost from_gives = { λ answer told. told ≡ seen_told answer };

    fn from(answer: Result<Seen, Refusal>) -> SeenTold {
        match answer {
            Ok(seen) => {
                let view = seen.latest;
                SeenTold {
                    refusal: 0,
                    known: seen.known,
                    view,
                }
            }
            Err(refusal) => SeenTold {
                refusal: number(refusal),
                known: 0,
                view: [-1; 7],
            },
        }
    }
}

impl From<Result<Agreed, Refusal>> for AgreedTold {
    ghost from_gives = { λ answer told. told ≡ agreed_told answer };

    fn from(answer: Result<Agreed, Refusal>) -> AgreedTold {
        match answer {
            Ok(agreed) => {
                let core = agreed.latest;
                AgreedTold {
                    refusal: 0,
                    steps: agreed.summary.steps,
                    critical: agreed.summary.critical,
                    kept: agreed.summary.kept,
                    count: agreed.count,
                    core,
                }
            }
            Err(refusal) => AgreedTold {
                refusal: number(refusal),
                steps: 0,
                critical: 0,
                kept: 0,
                count: 0,
                core: [-1; 7],
            },
        }
    }
}

impl From<Result<Standing, Refusal>> for StandingTold {
    ghost from_gives = { λ answer told. told ≡ standing_told answer };

    fn from(answer: Result<Standing, Refusal>) -> StandingTold {
        match answer {
            Ok(Standing::Clean) => StandingTold {
                refusal: 0,
                loser: 0,
            },
            Ok(Standing::Loser) => StandingTold {
                refusal: 0,
                loser: 1,
            },
            Err(refusal) => StandingTold {
                refusal: number(refusal),
                loser: 0,
            },
        }
    }
}
