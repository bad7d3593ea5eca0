//! Examples of refusals as they are shown.

#![tactic(auto)]

// The cases are of one shape, each with its own values, and stand apart so that each can be read by itself.

#[cfg(test)]
mod tests {
    use refusal::{Part, Refusal};
    use std::test::*;

    // Checks how a refusal is shown.
    fn shows(rt: HostRuntime, refusal: Refusal, text: &str) -> Result<(), Fail> {
        let shown = format!(in rt.alloc(); "{refusal}")?;
        if shown.as_str() != text {
            return Err(Fail::new(format_args!("shown as {shown:?}, and not as {text:?}")));
        }
        Ok(())
    }

    #[test]
    fn parts(rt: HostRuntime) -> Result<(), Fail> {
        let graph = Part::Graph;
        let sheet = Part::Sheet;
        let word = Part::Word;
        let recipe = Part::Recipe;
        let reading = Part::Reading;
        let shown = format!(in rt.alloc(); "{graph} {sheet} {word} {recipe} {reading}")?;
        assert_eq!(rt; shown.as_str(), "graph sheet word recipe reading");
        Ok(())
    }

    #[test]
    fn refusals_of_graphs(rt: HostRuntime) -> Result<(), Fail> {
        shows(
            rt,
            Refusal::PartialEdgeRecord,
            "graph, rule 1, place 0: the graph file does not end with a whole record of 8 bytes",
        )?;
        shows(
            rt,
            Refusal::GraphTooLarge,
            "graph, rule 2, place 0: there are more than 1,000,000 vertices or 4,000,000 edges",
        )?;
        shows(
            rt,
            Refusal::EdgeTableLength,
            "graph, rule 3, place 0: the edge table has not one row for each record",
        )?;
        shows(
            rt,
            Refusal::EndsNotRising(5),
            "graph, rule 4, place 5: the first end of the edge is not under the second",
        )?;
        shows(
            rt,
            Refusal::EndOutOfRange(3_999_999),
            "graph, rule 5, place 3999999: the second end of the edge is not a vertex",
        )?;
        shows(
            rt,
            Refusal::RecordsNotRising(1),
            "graph, rule 6, place 1: the edge does not come after the one before it",
        )
    }

    #[test]
    fn refusals_of_sheets(rt: HostRuntime) -> Result<(), Fail> {
        shows(
            rt,
            Refusal::WeightBufferLength,
            "sheet, rule 7, place 0: a weight buffer has not one place for each vertex or edge",
        )?;
        shows(
            rt,
            Refusal::ByteBufferLength,
            "sheet, rule 8, place 0: a byte buffer has not one record for each vertex or edge",
        )?;
        shows(
            rt,
            Refusal::NotAValue(7),
            "sheet, rule 9, place 7: the record is no weight of this kind",
        )?;
        shows(
            rt,
            Refusal::EdgeNotBelowEnds(2),
            "sheet, rule 10, place 2: the edge's weight is not below the weights of both its ends",
        )?;
        shows(
            rt,
            Refusal::StepSize,
            "sheet, rule 11, place 0: the size of a filter is not 1 to 200",
        )
    }

    #[test]
    fn refusals_of_recipes(rt: HostRuntime) -> Result<(), Fail> {
        shows(
            rt,
            Refusal::WordSize(3),
            "word, rule 11, place 3: the size of a filter is not 1 to 200",
        )?;
        shows(
            rt,
            Refusal::TextTooLong,
            "recipe, rule 12, place 0: the recipe is longer than 4,096 bytes",
        )?;
        shows(
            rt,
            Refusal::WordShape(4096),
            "word, rule 13, place 4096: the word is no filter with its size and none of H, J, M, F",
        )?;
        shows(
            rt,
            Refusal::TooManyWords(288),
            "recipe, rule 14, place 288: the recipe has more than 96 words",
        )?;
        shows(
            rt,
            Refusal::WordOutOfTurn(2),
            "recipe, rule 15, place 2: H while something is held, or J, M or F while nothing is",
        )?;
        shows(
            rt,
            Refusal::StillHeld(1),
            "recipe, rule 16, place 1: the recipe ends while something is held",
        )?;
        shows(
            rt,
            Refusal::TextBufferTooShort,
            "recipe, rule 18, place 0: the buffer is shorter than the recipe's text",
        )
    }

    #[test]
    fn refusals_of_readings(rt: HostRuntime) -> Result<(), Fail> {
        shows(
            rt,
            Refusal::NotAReading,
            "reading, rule 17, place 0: a cut at the lowest value, or a class above 31",
        )
    }
}
