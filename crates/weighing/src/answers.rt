// The answers to records: a line, none, or the record's fault.
ghost use Rattle.std.specs.Prelude.{◌≡◌};
ghost use Rattle.refusal.specs.Numbers.{refusal_in};
ghost use Rattle.plan.specs.Standing.{stands};
ghost use Rattle.planfile.specs.declared.turns.Open.TheVariants as opens;
ghost use Rattle.records.specs.declared.record.Record.TheVariants as records;
ghost use Rattle.weighing.specs.Pending.{pending_of};
ghost use Rattle.weighing.specs.Running.{counts_refused, Judging, judge_refused, Takes};
ghost use Rattle.weighing.specs.Turns.{Answered};

use crate::line::Line;
use crate::open_card::OpenCard;
use crate::scales::Scales;
use engine::card::CardParts;
use engine::numbers::Numbers;
use planfile::faults::{RecordFault, within};
use planfile::turns::Open;
use records::head::Head;
use records::record::{Kind, Record};
use refusal::Refusal;
use task::kinds::{Empty, TimedParts};

// A call that was made for a record: what it gave is the line.
fn answered<T: Into<Line>>(
    head: Head,
    answer: Result<T, Refusal>,
) -> Result<Option<Line>, RecordFault>
    ensures { Answered T.converts head answer result }
{
    let value = within(head, answer)?;
    Ok(Some(value.into()))
}

// The counts of a card's own record.
fn counts_right(modes: u8, bands: u8) -> Result<(), Refusal>
    ensures { refusal_in result ≡ counts_refused modes bands }
{
    if !(1..=8).contains(&modes) {
        return Err(Refusal::ModeList);
    }
    if !(1..=24).contains(&bands) {
        return Err(Refusal::BandList);
    }
    Ok(())
}

impl Scales {
    // The last band of a card has come: the card is put in.
    fn put_in(&mut self, card: &OpenCard) -> Result<Option<Line>, RecordFault>
        ensures { Takes (stands self.old.plan) (pending_of card.now) opens.Between (records.Band 0) (stands self.new.plan) result }
    {
        let head = Head {
            kind: Kind::Card,
            card: Some(card.number),
        };
        let parts = CardParts {
            angle: card.angle,
            modes: card.modes.as_slice(),
            bands: card.bands.as_slice(),
        };
        answered(
            head,
            self.plan.add_engine_card(card.number, card.share, parts),
        )
    }

    // A judge record: no guest, and lent memory for a horizon of 600.
    fn judge(&mut self, head: Head, horizon: u32) -> Result<Option<Line>, RecordFault>
        ensures { Judging head (stands self.old.plan) horizon (judge_refused horizon) (stands self.new.plan) result }
    {
        answered(
            head,
            self.plan
                .judge(&Empty, horizon, &mut self.work, &mut self.totals),
        )
    }

    // Carries out a record; the card that is being read has it already, and `state` is what stands
    // open after it.
    pub(crate) fn carry_out(
        &mut self,
        card: &OpenCard,
        state: Open,
        record: Record,
    ) -> Result<Option<Line>, RecordFault>
        ensures { Takes (stands self.old.plan) (pending_of card.now) state «record» (stands self.new.plan) result }
    {
        let head = record.head();
        // A match: each record makes a call of its own, and closures for them would be no plainer.
        match record {
            Record::Engine {
                least,
                greatest,
                rise,
                fall,
                entry,
            } => answered(
                head,
                self.plan.set_engine(Numbers {
                    least,
                    greatest,
                    rise,
                    fall,
                    entry,
                }),
            ),
            Record::Card { modes, bands, .. } => {
                within(head, counts_right(modes, bands))?;
                Ok(None)
            }
            Record::Band { .. } if state == Open::Between => self.put_in(card),
            Record::Mode { .. } | Record::Band { .. } => Ok(None),
            Record::Timed {
                number,
                period,
                deadline,
                cost,
            } => answered(
                head,
                self.plan.add_timed_card(
                    number,
                    TimedParts {
                        period,
                        deadline,
                        cost,
                    },
                ),
            ),
            Record::Recost {
                number,
                index,
                cost,
            } => answered(head, self.plan.recost(number, index, cost)),
            Record::Cut { number, speed } => answered(head, self.plan.cut(number, speed)),
            Record::Drop { number } => answered(head, self.plan.drop_card(number)),
            Record::Judge { horizon } => self.judge(head, horizon),
        }
    }
}
