// Why a site has no plan.
use hk_feed::FeedFault;
use hk_rules::PlanFault;
use hk_tags::TagFault;

/// Why a site has no plan: its rules make none of its files, its tables give no pages, or its feeds can't be made.
#[derive(Debug, Drop)]
pub enum SiteFault {
    Plan(PlanFault),
    Tags(TagFault),
    Feeds(FeedFault),
}
