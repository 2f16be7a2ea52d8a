//! The results of blocks, and of all blocks.

ghost use Rattle.std.specs.Prelude.{◌≡◌, true};
ghost use Rattle.std.specs.List.{list_all, list_any};
ghost use Rattle.mt_ram.specs.Results.{result_after, failed_after, has_failed, is_result, overall};

use mt_seq::Verdict;
use mt_window::TestResult;

/// A block's result at the end of a slice of its test.
pub(crate) fn next_result(old: TestResult, verdict: Verdict, failed: bool, last: bool) -> TestResult
    ensures { result ≡ result_after old verdict failed last }
{
    if is_fail(verdict) {
        return TestResult::NotOk;
    }
    if last {
        return last_result(failed);
    }
    if is(TestResult::NotTested, old) {
        return TestResult::Undefined;
    }
    old
}

// The result at the end of a last slice that passes.
fn last_result(failed: bool) -> TestResult
    ensures { result ≡ result_after TestResult.Ok Verdict.Pass failed true }
{
    if failed {
        TestResult::NotOk
    } else {
        TestResult::Ok
    }
}

fn is_fail(verdict: Verdict) -> bool
    ensures { result ≡ has_failed verdict }
{
    match verdict {
        Verdict::Pass => false,
        Verdict::Fail => true,
    }
}

/// Whether a slice of the unfinished test failed, after a slice.
pub(crate) fn keep_failed(verdict: Verdict, failed: bool, last: bool) -> bool
    ensures { result ≡ failed_after verdict failed last }
{
    !last && (failed || is_fail(verdict))
}

fn is(want: TestResult, have: TestResult) -> bool
    ensures { result ≡ is_result want have }
{
    match (want, have) {
        (TestResult::NotTested, TestResult::NotTested) => true,
        (TestResult::Ok, TestResult::Ok) => true,
        (TestResult::NotOk, TestResult::NotOk) => true,
        (TestResult::Undefined, TestResult::Undefined) => true,
        _ => false,
    }
}

fn all_are(results: &[TestResult], want: TestResult) -> bool
    ensures { result ≡ list_all (is_result want) results.now }
{
    for have in results {
        if !is(want, *have) {
            return false;
        }
    }
    true
}

fn any_is(results: &[TestResult], want: TestResult) -> bool
    ensures { result ≡ list_any (is_result want) results.now }
{
    for have in results {
        if is(want, *have) {
            return true;
        }
    }
    false
}

/// The overall result.
pub(crate) fn overall_of(results: &[TestResult]) -> TestResult
    ensures { result ≡ overall results.now }
{
    if any_is(results, TestResult::NotOk) {
        return TestResult::NotOk;
    }
    if all_are(results, TestResult::Ok) {
        return TestResult::Ok;
    }
    if all_are(results, TestResult::NotTested) {
        return TestResult::NotTested;
    }
    TestResult::Undefined
}
